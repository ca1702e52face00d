// The calls on one walk (the Rust's `Walk`): `point`, `edge`, `advance`, and `next`, which hands
// out the edge and the next place at once. Each takes any contour and any place, also one that a
// caller made up, and refuses by number: 7, 23, 2, in this order; a refused walk comes back as it
// came. A lent contour is never changed. Leans on walk_move and walk_read.
#![tactic(auto)]

ghost use Rattle.std.specs.Prelude.{◌≡◌};
ghost use Rattle.walk.specs.Calls.{point_fault, step_fault};
ghost use Rattle.walk.specs.Clauses.{PointedBy, EdgedBy, AdvancedBy, SteppedBy};

use corners::corner_count;
use pair::Place;
use walk::{Advanced, Edged, Pointed, Stepped};
use walk_read::off_at;

// The fault of a walk's point; 0 for none.
fn point_fault(contour: &[i32], w: Place) -> u32
    ensures { result ≡ point_fault contour.now w }
{
    if walk_read::length_broken(contour) {
        return integers::fault::RULES;
    }
    if walk_read::misplaced(corner_count(contour), w) {
        return integers::fault::PLACE;
    }
    if off_at(contour, w.index as usize) {
        return integers::fault::RANGE;
    }
    0
}

// The fault of a walk's step, its edge or its advance; 0 for none.
fn step_fault(contour: &[i32], w: Place) -> u32
    ensures { result ≡ step_fault contour.now w }
{
    if walk_read::length_broken(contour) {
        return integers::fault::RULES;
    }
    let n = corner_count(contour);
    if w.remaining == 0 || walk_read::misplaced(n, w) {
        return integers::fault::PLACE;
    }
    if off_at(contour, w.index as usize) || off_at(contour, walk_read::next_index(n, w) as usize) {
        return integers::fault::RANGE;
    }
    0
}

// Where a walk stands. Needs no step left.
pub fn point(contour: &[i32], w: Place) -> Pointed
    ensures { PointedBy contour.now w result }
{
    let fault = point_fault(contour, w);
    if fault != 0 {
        return Pointed::Refused(fault);
    }
    Pointed::Point(walk_move::point_of(contour, w))
}

// The edge that a walk would step along.
pub fn edge(contour: &[i32], w: Place) -> Edged
    ensures { EdgedBy contour.now w result }
{
    let fault = step_fault(contour, w);
    if fault != 0 {
        return Edged::Refused(fault);
    }
    Edged::Edge(walk_move::edge_of(contour, w))
}

// The walk one step on.
pub fn advance(contour: &[i32], w: Place) -> Advanced
    ensures { AdvancedBy contour.now w result }
{
    let fault = step_fault(contour, w);
    if fault != 0 {
        return Advanced::Refused(fault, w);
    }
    Advanced::At(walk_move::advance_of(corner_count(contour), w))
}

// The edge and the walk one step on.
pub fn next(contour: &[i32], w: Place) -> Stepped
    ensures { SteppedBy contour.now w result }
{
    let fault = step_fault(contour, w);
    if fault != 0 {
        return Stepped::Refused(fault, w);
    }
    let e = walk_move::edge_of(contour, w);
    Stepped::Edge(e, walk_move::advance_of(corner_count(contour), w))
}
