// Where a place lies by the contours of a pair result (`placement`): apart from all, touching, or
// overlapping one. It takes any starts, corners and place, refuses with 7 and 2, and writes
// nothing; its answer is `placed_of` of specs/Placement.antt. One pass over the starts, one over
// the numbers, and one over the contours, each left at the first edge that the place is right of.
// Leans on walk_read (a corner of lent numbers), table and plane.
#![tactic(auto)]

ghost use Rattle.std.specs.Prelude.{◌≡◌, true, false, cond, [], ◌<◌, get_or, pos};
ghost use Rattle.std.specs.Int.Signed.{le_z, lt_z};
ghost use Rattle.plane.specs.Plane.{area_two, eq_pt};
ghost use Rattle.plane.specs.Machine.{point, OnGrid, CrossSize};
ghost use Rattle.corners.specs.Corners.{points_of, off_range};
ghost use Rattle.table.specs.Table.{table_parts, part_count};
ghost use Rattle.pair.specs.Walk.{corner_at};
ghost use Rattle.placement.specs.Placement.{among, contact_in, contact_by, place_fault, placed_of, EdgeAt, Placeable};

use corners::{corner_at, corner_count};
use plane::IntPoint;

// Where a place lies: inside no contour, on the rim of one and strictly inside none, strictly
// inside one.
#[derive(Clone, Copy)]
pub enum Contact {
    Apart,
    Touching,
    Overlapping,
}

// That, or the fault number.
#[derive(Clone, Copy)]
pub enum Placed {
    At(Contact),
    Refused(u32),
}

// The first of 7 and 2 that holds; 0 for none.
fn place_fault(starts: &[u32], corners: &[i32], z: IntPoint) -> u32
    ensures { result ≡ place_fault starts.now corners.now (point z) }
{
    if table::result_broken(starts, corners) {
        return integers::fault::RULES;
    }
    if !plane::on_grid(z) || corners::off_range(corners) {
        return integers::fault::RANGE;
    }
    0
}

// Whether a is not right of b, or was not before.
fn or_not_right(before: bool, a: IntPoint, b: IntPoint) -> bool
    ensures { result ≡ cond (le_z (point a).x (point b).x) true before }
{
    a.x <= b.x || before
}

// Whether a is not above b, or was not before.
fn or_not_above(before: bool, a: IntPoint, b: IntPoint) -> bool
    ensures { result ≡ cond (le_z (point a).y (point b).y) true before }
{
    a.y <= b.y || before
}

// Whether z is not past all corners to one side.
fn is_among(contour: &[i32], z: IntPoint) -> bool
    ensures { result ≡ among (points_of contour.now) (point z) }
{
    let mut right = false;
    let mut left = false;
    let mut above = false;
    let mut below = false;
    for k in 0..corner_count(contour) {
        let c = corner_at(contour, k);
        right = or_not_right(right, c, z);
        left = or_not_right(left, z, c);
        above = or_not_above(above, c, z);
        below = or_not_above(below, z, c);
    }
    right && left && above && below
}

// How far z is left of the edge from corner i to corner k.
fn side_at(contour: &[i32], i: usize, k: usize, z: IntPoint) -> i64
    requires { EdgeAt contour.now i k × OnGrid z }
    ensures { (result ≡ area_two (corner_at (points_of contour.now) i) (corner_at (points_of contour.now) k) (point z)) × CrossSize result }
{
    plane::area_two(corner_at(contour, i), corner_at(contour, k), z)
}

// Whether s is above 0, or one before was.
fn or_above(before: bool, s: i64) -> bool
    ensures { result ≡ cond (lt_z (pos 0) s) true before }
{
    s > 0 || before
}

// Whether z, with side s of the edge from corner i to corner k, is left of it or the edge has no
// length, and so it was before.
fn and_left(contour: &[i32], i: usize, k: usize, before: bool, s: i64) -> bool
    requires { EdgeAt contour.now i k }
    ensures { let l = points_of contour.now in
        result ≡ cond before (cond (lt_z (pos 0) s) true (eq_pt (corner_at l i) (corner_at l k))) false }
{
    before && (s > 0 || plane::same_point(corner_at(contour, i), corner_at(contour, k)))
}

// Where z lies by one contour.
pub fn placed_in(contour: &[i32], z: IntPoint) -> Contact
    requires { (off_range contour.now ≡ false) × OnGrid z }
    ensures { result ≡ contact_in (point z) (points_of contour.now) }
{
    let n = corner_count(contour);
    if n == 0 {
        return Contact::Apart;
    }
    let mut strict = true;
    let mut left = false;
    let mut i = n - 1;
    for k in 0..n {
        let s = side_at(contour, i, k, z);
        if s < 0 {
            return Contact::Apart;
        }
        strict = and_left(contour, i, k, strict, s);
        left = or_above(left, s);
        i = k;
    }
    if strict && left {
        Contact::Overlapping
    } else if is_among(contour, z) {
        Contact::Touching
    } else {
        Contact::Apart
    }
}

// Where z lies by contour k.
fn placed_at(starts: &[u32], corners: &[i32], k: usize, z: IntPoint) -> Contact
    requires { Placeable starts.now corners.now × (k < part_count starts.now) × OnGrid z }
    ensures { result ≡ contact_in (point z) (get_or (table_parts starts.now corners.now) k []) }
{
    let from = starts[k] as usize;
    let to = starts[k + 1] as usize;
    placed_in(corners::part(corners, from, to), z)
}

// Where z lies by all contours.
fn placed_by(starts: &[u32], corners: &[i32], z: IntPoint) -> Contact
    requires { Placeable starts.now corners.now × OnGrid z }
    ensures { result ≡ contact_by (point z) (table_parts starts.now corners.now) }
{
    let parts = starts.len() - 1;
    let mut touches = false;
    for k in 0..parts {
        match placed_at(starts, corners, k, z) {
            Contact::Apart => {}
            Contact::Touching => touches = true,
            Contact::Overlapping => return Contact::Overlapping,
        }
    }
    if touches {
        Contact::Touching
    } else {
        Contact::Apart
    }
}

// Where the place (x, y) lies by the contours of a pair result. Refuses with 7, 2, in this order.
pub fn placement(starts: &[u32], corners: &[i32], x: i32, y: i32) -> Placed
    ensures { result ≡ placed_of starts.now corners.now (record { x = x; y = y }) }
{
    let z = IntPoint { x, y };
    let fault = place_fault(starts, corners, z);
    if fault != 0 {
        return Placed::Refused(fault);
    }
    Placed::At(placed_by(starts, corners, z))
}
