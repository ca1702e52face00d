// The winding of a contour seen from a corner, in table order, with its running total watched: it
// is added checked, so nothing wraps (document 01, fault 8). Leans on walk_read and plane.
#![tactic(auto)]

ghost use Rattle.std.specs.Prelude.{◌≡◌, false, ◌+◌, ◌<◌, length, get_or, pos, ◌+ℤ◌};
ghost use Rattle.plane.specs.Machine.{CrossSize};
ghost use Rattle.corners.specs.Corners.{points_of, off_range};
ghost use Rattle.pair.specs.Walk.{winding_terms};
ghost use Rattle.walk_winding.specs.Winding.{round_to, added_of, winding_of};

use corners::{corner_at, corner_count};

// total + term; none where it leaves signed 64 bits.
fn add_term(total: i64, term: i64) -> Option<i64>
    ensures { result ≡ added_of (total +ℤ term) }
{
    total.checked_add(term)
}

// Place i of a contour of n corners, past its end from its first corner on.
fn round_to(n: usize, i: usize) -> usize
    requires { i < n + n }
    ensures { (result ≡ round_to n i) × (result < n) }
{
    if i < n { i } else { i - n }
}

// Term k of the winding seen from corner s: the cross of corners s + k and s + k + 1, round the
// contour.
fn term_at(contour: &[i32], s: usize, k: usize) -> i64
    requires { (off_range contour.now ≡ false) × (s < length (points_of contour.now)) × (k < length (points_of contour.now)) }
    ensures { (result ≡ get_or (winding_terms s (points_of contour.now)) k (pos 0)) × CrossSize result }
{
    let n = corner_count(contour);
    let origin = corner_at(contour, s);
    let a = corner_at(contour, round_to(n, s + k));
    let b = corner_at(contour, round_to(n, s + k + 1));
    let from = plane::subtract(a, origin);
    let to = plane::subtract(b, origin);
    plane::cross_product(from, to)
}

// The winding seen from corner s; none where its running total leaves signed 64 bits.
pub fn winding(contour: &[i32], s: usize) -> Option<i64>
    requires { (off_range contour.now ≡ false) × (s < length (points_of contour.now)) }
    ensures { result ≡ winding_of (pos 0) (winding_terms s (points_of contour.now)) }
{
    let mut total: i64 = 0;
    for k in 0..corner_count(contour) {
        total = add_term(total, term_at(contour, s, k))?;
    }
    Some(total)
}
