// A walk begun (`begin`, the Rust's `Walk::new`): its start, its winding, its first place. It takes
// any contour and refuses with 7, 2, 8, 20, in this order. `begin_checked` is the same of a contour
// whose length and range are judged already. Leans on walk_winding, walk_extremes, walk_read, table
// (the range).
#![tactic(auto)]

ghost use Rattle.std.specs.Prelude.{◌≡◌, true, false, ◌<◌, length};
ghost use Rattle.plane.specs.Plane.{eq_pt};
ghost use Rattle.corners.specs.Corners.{points_of, off_range};
ghost use Rattle.pair.specs.Walk.{corner_at, end_at, place_by};
ghost use Rattle.walk.specs.Calls.{length_broken, begun_of};
ghost use Rattle.walk.specs.Clauses.{BegunBy};

use corners::{corner_at, corner_count};
use pair::Place;
use walk::Begun;

// A walk round a contour of n corners from corner s.
fn round(s: u16, n: u16, reverse: bool, reflected: bool) -> Place
    ensures { result ≡ record { index = s; remaining = n; reverse = reverse; reflected = reflected; segment = false; start = s; end = s } }
{
    Place {
        index: s,
        remaining: n,
        reverse,
        reflected,
        segment: false,
        start: s,
        end: s,
    }
}

// A walk from corner s to corner e and back.
fn along(s: u16, e: u16, remaining: u16, reflected: bool) -> Place
    ensures { result ≡ record { index = s; remaining = remaining; reverse = false; reflected = reflected; segment = true; start = s; end = e } }
{
    Place {
        index: s,
        remaining,
        reverse: false,
        reflected,
        segment: true,
        start: s,
        end: e,
    }
}

// Where a walk that starts at corner s stands at first, by its winding.
fn place_by(contour: &[i32], reflected: bool, s: usize, total: i64) -> Place
    requires { (length_broken contour.now ≡ false) × (s < length (points_of contour.now)) }
    ensures { let l = points_of contour.now in
        let end = end_at reflected l in
        result ≡ place_by reflected (length l) s end total (eq_pt (corner_at l s) (corner_at l end)) }
{
    let n = corner_count(contour) as u16;
    let start = s as u16;
    if total < 0 {
        round(start, n, true, reflected)
    } else if total > 0 {
        round(start, n, false, reflected)
    } else {
        let e = walk_extremes::end_at(contour, reflected);
        let point = plane::same_point(corner_at(contour, s), corner_at(contour, e));
        along(start, e as u16, if point { 0 } else { 2 }, reflected)
    }
}

// A walk begun on a contour of sound length and range. Refuses with 8, 20.
pub fn begin_checked(contour: &[i32], reflected: bool) -> Begun
    requires { (length_broken contour.now ≡ false) × (off_range contour.now ≡ false) }
    ensures { result ≡ begun_of contour.now reflected }
{
    if contour.is_empty() {
        return Begun::Refused(integers::fault::EMPTY);
    }
    let s = walk_extremes::start_at(contour, reflected);
    let Some(total) = walk_winding::winding(contour, s) else {
        return Begun::Refused(integers::fault::WINDING);
    };
    Begun::At(place_by(contour, reflected, s, total))
}

// A walk begun. Refuses with 7, 2, 8, 20.
pub fn begin(contour: &[i32], reflected: bool) -> Begun
    ensures { BegunBy contour.now reflected result }
{
    if walk_read::length_broken(contour) {
        return Begun::Refused(integers::fault::RULES);
    }
    if corners::off_range(contour) {
        return Begun::Refused(integers::fault::RANGE);
    }
    begin_checked(contour, reflected)
}
