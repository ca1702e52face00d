// Where a walk starts (document 01): "at the lowest corner, then leftmost, first of equals; a
// reflected walk at the highest, then rightmost, last of equals", and the other extreme, where a
// segment ends. Each place equals its definition in pair's specs/Walk.antt, for any contour. Leans
// on walk_read.
#![tactic(auto)]

ghost use Rattle.std.specs.Prelude.{◌≡◌, cond, ◌<◌, length};
ghost use Rattle.plane.specs.Machine.{point};
ghost use Rattle.corners.specs.Corners.{points_of};
ghost use Rattle.pair.specs.Walk.{corner_at, below, least_at, greatest_at, start_at, end_at};

use corners::{corner_at, corner_count};
use plane::IntPoint;

// Whether p comes before q by (y, x). Test by test, as each is a branch that is mostly foretold: by
// one test of all three each corner of a contour waits for the one before, 1.3 to 1.7 of the time.
fn below(p: IntPoint, q: IntPoint) -> bool
    ensures { result ≡ below (point p) (point q) }
{
    if p.y < q.y {
        return true;
    }
    if q.y < p.y {
        return false;
    }
    p.x < q.x
}

// The lesser of corners best and i, by their places, best where they are equal; or the greater, i
// where they are equal. Which of the two is a const, so that no turn compares it.
fn better_of<const GREATEST: bool>(contour: &[i32], best: usize, i: usize) -> usize
    requires { (best < length (points_of contour.now)) × (i < length (points_of contour.now)) }
    ensures { let l = points_of contour.now in
        let under = below (corner_at l i) (corner_at l best) in
        result ≡ cond GREATEST (cond under best i) (cond under i best) }
{
    if below(corner_at(contour, i), corner_at(contour, best)) {
        if GREATEST { best } else { i }
    } else if GREATEST {
        i
    } else {
        best
    }
}

// The place of the least corner, first of equals; or of the greatest, last of equals.
fn extreme_at<const GREATEST: bool>(contour: &[i32]) -> usize
    ensures { let l = points_of contour.now in
        result ≡ cond GREATEST (greatest_at l) (least_at l) }
{
    let mut best: usize = 0;
    for i in 1..corner_count(contour) {
        best = better_of::<GREATEST>(contour, best, i);
    }
    best
}

// Where a walk starts.
pub fn start_at(contour: &[i32], reflected: bool) -> usize
    ensures { result ≡ start_at reflected (points_of contour.now) }
{
    if reflected {
        extreme_at::<true>(contour)
    } else {
        extreme_at::<false>(contour)
    }
}

// The other extreme.
pub fn end_at(contour: &[i32], reflected: bool) -> usize
    ensures { result ≡ end_at reflected (points_of contour.now) }
{
    if reflected {
        extreme_at::<false>(contour)
    } else {
        extreme_at::<true>(contour)
    }
}
