// One edge of a pair: the steps of two walks while their edges belong to it (document 01: "Equal
// directions merge into one edge"; the loop of the Rust's `next`). The walks and contours are
// judged already (`Judged` of walk_pick); `run` equals its definition in pair's specs/Pair.antt.
// Leans on walk_pick, walk_move, walk_read, plane.
#![tactic(auto)]

ghost use Rattle.std.specs.Prelude.{◌≡◌, false, ◌<◌, length};
ghost use Rattle.plane.specs.Machine.{vector, Short};
ghost use Rattle.corners.specs.Corners.{points_of};
ghost use Rattle.pair.specs.Pair.{step_first, step_second, unset, belongs, run, steps_left};
ghost use Rattle.walk.specs.Calls.{length_broken, misplaced};
ghost use Rattle.walk_pick.specs.Picking.{Judged};
ghost use Rattle.walk_merge.specs.Merging.{heading_by, HeadingShort, stop_of, Took, MayStep, SteppedOn};

use corners::corner_count;
use pair::ConvexSum;
use plane::IntVector;
use std::cmp::Ordering;
use walk_move::advance_of;
use walk_pick::Step;

// The steps of one edge: its direction, none where no edge is begun, and where both walks stand.
#[derive(Clone, Copy)]
pub struct Going {
    pub heading: Option<IntVector>,
    pub at: ConvexSum,
}

// Whether an edge belongs to the one begun: a zero edge does, and any does where none is begun.
fn belongs(heading: Option<IntVector>, e: IntVector) -> bool
    requires { HeadingShort heading × Short e }
    ensures { result ≡ belongs (heading_by heading) (vector e) }
{
    let Some(begun) = heading else {
        return true;
    };
    if plane::is_zero(e) {
        return true;
    }
    match plane::angle_cmp(begun, e) {
        Ordering::Less => false,
        Ordering::Equal => true,
        Ordering::Greater => false,
    }
}

// An edge that belongs is taken: the walks stand at t, and the edge begun has its direction, unless
// it is zero.
fn take(g: Going, e: IntVector, t: ConvexSum) -> Going
    requires { HeadingShort g.heading × Short e }
    ensures { Took g (vector e) t result }
{
    let heading = match g.heading {
        Some(begun) => Some(begun),
        None if plane::is_zero(e) => None,
        None => Some(e),
    };
    Going { heading, at: t }
}

// The first walk one step on, which has a step left.
fn step_first(left: &[i32], s: ConvexSum) -> ConvexSum
    requires { (length_broken left.now ≡ false) × (misplaced (length (points_of left.now)) s.a ≡ false) × (0 < s.a.remaining) }
    ensures { result ≡ step_first (points_of left.now) s }
{
    ConvexSum {
        a: advance_of(corner_count(left), s.a),
        b: s.b,
    }
}

// The second walk one step on, which has a step left.
fn step_second(right: &[i32], s: ConvexSum) -> ConvexSum
    requires { (length_broken right.now ≡ false) × (misplaced (length (points_of right.now)) s.b ≡ false) × (0 < s.b.remaining) }
    ensures { result ≡ step_second (points_of right.now) s }
{
    ConvexSum {
        a: s.a,
        b: advance_of(corner_count(right), s.b),
    }
}

// One more step of the edge; none where the steps stop.
fn step_on(left: &[i32], right: &[i32], g: Going) -> Option<Going>
    requires { MayStep left.now right.now g }
    ensures { SteppedOn left.now right.now g result }
{
    match walk_pick::next_step(left, right, g.at) {
        Step::Neither => None,
        Step::First(e) => {
            if belongs(g.heading, e) {
                Some(take(g, e, step_first(left, g.at)))
            } else {
                None
            }
        }
        Step::Second(e) => {
            if belongs(g.heading, e) {
                Some(take(g, e, step_second(right, g.at)))
            } else {
                None
            }
        }
    }
}

// The steps of one edge from s, to where they stop.
pub fn run(left: &[i32], right: &[i32], s: ConvexSum) -> Going
    requires { Judged left.now right.now s }
    ensures { stop_of result ≡ run (steps_left s) (points_of left.now) (points_of right.now) unset s }
{
    let mut g = Going {
        heading: None,
        at: s,
    };
    while let Some(next) = step_on(left, right, g) {
        g = next;
    }
    g
}
