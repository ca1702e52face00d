// A pair of walks stepped (the Rust's `ConvexSum::next`): `next` hands out one corner or tells the
// end. It takes any contours and any places, also ones that a caller made up, and refuses by
// number, each kind left before right: 7, 23, 2; refused walks come back as they came. `emit` is
// `next` of input that is judged already. Leans on walk_merge, walk_move, walk_read, table (the
// range).
#![tactic(auto)]

ghost use Rattle.std.specs.Prelude.{◌≡◌};
ghost use Rattle.plane.specs.Plane.{◌+ᵖ◌};
ghost use Rattle.plane.specs.Machine.{point, OnGrid};
ghost use Rattle.corners.specs.Corners.{points_of};
ghost use Rattle.pair.specs.Pair.{pair_step};
ghost use Rattle.walk.specs.Calls.{pair_step_fault, next_of};
ghost use Rattle.walk.specs.Clauses.{NextBy};
ghost use Rattle.walk_pick.specs.Picking.{Judged};

use corners::corner_count;
use pair::ConvexSum;
use plane::IntPoint;
use walk::Next;
use walk_move::point_of;
use walk_read::{length_broken, misplaced};

// p + q.
fn add_points(p: IntPoint, q: IntPoint) -> IntPoint
    requires { OnGrid p × OnGrid q }
    ensures { point result ≡ point p +ᵖ point q }
{
    IntPoint {
        x: p.x + q.x,
        y: p.y + q.y,
    }
}

// One corner, or the end, of a pair that is judged.
pub fn emit(left: &[i32], right: &[i32], s: ConvexSum) -> Next
    requires { Judged left.now right.now s }
    ensures { result ≡ next_of (pair_step (points_of left.now) (points_of right.now) s) }
{
    let p = add_points(point_of(left, s.a), point_of(right, s.b));
    let g = walk_merge::run(left, right, s);
    match g.heading {
        Some(_) => Next::Corner(p, g.at),
        None => Next::End(g.at),
    }
}

// The fault of a pair's step; 0 for none.
fn pair_fault(left: &[i32], right: &[i32], s: ConvexSum) -> u32
    ensures { result ≡ pair_step_fault left.now right.now s }
{
    if length_broken(left) || length_broken(right) {
        return integers::fault::RULES;
    }
    if misplaced(corner_count(left), s.a) || misplaced(corner_count(right), s.b) {
        return integers::fault::PLACE;
    }
    if corners::off_range(left) || corners::off_range(right) {
        return integers::fault::RANGE;
    }
    0
}

// One corner, or the end: with no nonzero edge left, both walks have then run out.
pub fn next(left: &[i32], right: &[i32], s: ConvexSum) -> Next
    ensures { NextBy left.now right.now s result }
{
    let fault = pair_fault(left, right, s);
    if fault != 0 {
        return Next::Refused(fault, s);
    }
    emit(left, right, s)
}
