// One walk's point, edge and next place, of a place that is judged already (document 01: "hands out
// point, edge and the next place"; "A reflected walk negates points and edges"). Leans on walk_read
// and plane.
#![tactic(auto)]

ghost use Rattle.std.specs.Prelude.{◌≡◌, false, ◌<◌, ◌≤◌, length};
ghost use Rattle.plane.specs.Plane.{negᵖ};
ghost use Rattle.plane.specs.Machine.{point, vector, OnGrid, Short};
ghost use Rattle.corners.specs.Corners.{points_of};
ghost use Rattle.table.specs.Table.{max_contour};
ghost use Rattle.pair.specs.Walk.{point_of, edge_of, next_index, advance};
ghost use Rattle.walk.specs.Calls.{length_broken, misplaced, off_at};

use corners::{corner_at, corner_count};
use pair::Place;
use plane::{IntPoint, IntVector};
use walk_read::next_index;

// p turned through the origin.
fn negated(p: IntPoint) -> IntPoint
    requires { OnGrid p }
    ensures { (point result ≡ negᵖ (point p)) × OnGrid result }
{
    IntPoint { x: -p.x, y: -p.y }
}

// The point where a walk stands.
pub fn point_of(contour: &[i32], w: Place) -> IntPoint
    requires { (misplaced (length (points_of contour.now)) w ≡ false) × (off_at (points_of contour.now) w.index ≡ false) }
    ensures { (point result ≡ point_of (points_of contour.now) w) × OnGrid result }
{
    let p = corner_at(contour, w.index as usize);
    if w.reflected { negated(p) } else { p }
}

// The edge to its next place.
pub fn edge_of(contour: &[i32], w: Place) -> IntVector
    requires { let l = points_of contour.now in
        (length_broken contour.now ≡ false)
        × (misplaced (length l) w ≡ false)
        × (off_at l w.index ≡ false)
        × (off_at l (next_index (length l) w) ≡ false) }
    ensures { (vector result ≡ edge_of (points_of contour.now) w) × Short result }
{
    let next = next_index(corner_count(contour), w);
    let a = corner_at(contour, w.index as usize);
    let b = corner_at(contour, next as usize);
    if w.reflected {
        plane::subtract(a, b)
    } else {
        plane::subtract(b, a)
    }
}

// The walk one step on, on a contour of n corners.
pub fn advance_of(n: usize, w: Place) -> Place
    requires { (n ≤ max_contour) × (misplaced n w ≡ false) × (0 < w.remaining) }
    ensures { result ≡ advance n w }
{
    Place {
        index: next_index(n, w),
        remaining: w.remaining - 1,
        ..w
    }
}
