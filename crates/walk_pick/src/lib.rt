// Which walk of a pair steps next, and its edge (document 01: "The lesser edge steps; the first
// operand steps on equality. A zero edge steps without effect and before any comparison, the first
// operand's first"; the Rust's `next_step`). The walks and contours are judged already (`Judged` of
// specs/Picking.antt). Leans on walk_move and plane.
#![tactic(auto)]

ghost use Rattle.std.specs.Prelude.{◌≡◌};
ghost use Rattle.plane.specs.Machine.{vector, Short};
ghost use Rattle.corners.specs.Corners.{points_of};
ghost use Rattle.pair.specs.Pair.{lesser, next_step};
ghost use Rattle.walk_pick.specs.Picking.{Judged, pick_of, StepShort};

use pair::ConvexSum;
use plane::IntVector;
use std::cmp::Ordering;
use walk_move::edge_of;

// The walk that steps next, and its edge; neither where none has a step left.
#[derive(Clone, Copy)]
pub enum Step {
    Neither,
    First(IntVector),
    Second(IntVector),
}

// The lesser edge steps, a zero edge before any comparison, the first walk's on equality.
fn lesser(a: IntVector, b: IntVector) -> Step
    requires { Short a × Short b }
    ensures { (pick_of result ≡ lesser (vector a) (vector b)) × StepShort result }
{
    if plane::is_zero(a) {
        return Step::First(a);
    }
    if plane::is_zero(b) {
        return Step::Second(b);
    }
    match plane::angle_cmp(a, b) {
        Ordering::Less => Step::First(a),
        Ordering::Equal => Step::First(a),
        Ordering::Greater => Step::Second(b),
    }
}

// The walk that steps next; one with no step left stands still.
pub fn next_step(left: &[i32], right: &[i32], s: ConvexSum) -> Step
    requires { Judged left.now right.now s }
    ensures { (pick_of result ≡ next_step (points_of left.now) (points_of right.now) s) × StepShort result }
{
    match (s.a.remaining, s.b.remaining) {
        (0, 0) => Step::Neither,
        (0, _) => Step::Second(edge_of(right, s.b)),
        (_, 0) => Step::First(edge_of(left, s.a)),
        _ => lesser(edge_of(left, s.a), edge_of(right, s.b)),
    }
}
