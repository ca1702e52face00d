// Where a place lies by the contours of all pairs of two operands, one pair after another: each
// pair of walks is merged into a work buffer and left there, so that no result is kept.
// `place_operands` takes any two tables with bounds and a place on the grid; it tells the pairs'
// first fault (7, 2, 9, 8, 10, 20), or where the place lies, and stops at a contour that the place
// lies strictly inside. Its answer is `placed_by` of specs/Place.antt. Leans on pairs_work,
// minkowski_order and placement.
#![tactic(auto)]

ghost use Rattle.std.specs.Prelude.{◌≡◌, ◌<◌};
ghost use Rattle.plane.specs.Machine.{point, OnGrid};
ghost use Rattle.pair_walks.specs.Walks.{pair_in, contours_in};
ghost use Rattle.minkowski_work.specs.Scratch.{call_of};
ghost use Rattle.placement.specs.Placement.{contact_in, contact_by};
ghost use Rattle.pairs_place.specs.Place.{Merging, Placing, Walkable, placed_by};

use minkowski::Operation;
use pairs_work::{Begun, FIRSTS, POINTS};
use placement::{Contact, Placed};
use plane::IntPoint;

// The numbers of a work buffer that holds the corners of any pair.
const WORK: usize = corners::WIDTH * (2 * table::MAX_CONTOUR);

// Where z lies by the contour of left walk p and right walk q, which is left in the work buffer.
fn placed_pair(
    firsts: &[u32],
    points: &[[i32; 2]],
    numbers: &[u64],
    left: usize,
    right: usize,
    p: usize,
    q: usize,
    z: IntPoint,
    work: &mut [i32],
) -> Contact
    requires { Merging firsts.now points.now numbers.now left right p q work.old × OnGrid z }
    ensures { result ≡ contact_in (point z) (pair_in firsts.now points.now left right p q) }
{
    let count = minkowski_order::merge_pair(firsts, points, numbers, left, right, p, q, work);
    placement::placed_in(corners::front(work, count), z)
}

// Where z lies by the contours of all pairs of walks.
fn placed_walks(
    firsts: &[u32],
    points: &[[i32; 2]],
    numbers: &[u64],
    left: usize,
    right: usize,
    z: IntPoint,
    work: &mut [i32],
) -> Contact
    requires { Placing firsts.now points.now numbers.now left right work.old × OnGrid z }
    ensures { result ≡ contact_by (point z) (contours_in firsts.now points.now left right) }
{
    let pairs = left * right;
    let mut contact = Contact::Apart;
    for k in 0..pairs {
        let (p, q) = (k / right, k % right);
        match placed_pair(firsts, points, numbers, left, right, p, q, z, work) {
            Contact::Apart => {}
            Contact::Touching => contact = Contact::Touching,
            Contact::Overlapping => return Contact::Overlapping,
        }
    }
    contact
}

// The same of two operands begun, whose walks and their numbers lie in places for any two.
fn placed_begun(
    begun: Begun,
    firsts: &[u32; FIRSTS],
    points: &[[i32; 2]; POINTS],
    numbers: &[u64; POINTS],
    z: IntPoint,
) -> Contact
    requires { Walkable firsts.now points.now numbers.now begun.left begun.right × OnGrid z }
    ensures { result ≡ contact_by (point z) (contours_in firsts.now points.now begun.left begun.right) }
{
    let Begun { left, right, .. } = begun;
    let mut work = [0i32; WORK];
    placed_walks(firsts, points, numbers, left, right, z, &mut work)
}

// Where z lies by the contours of all pairs of two operands. Refuses with 7, 2, 9, 8, 10, 20, in
// this order.
pub fn place_operands(
    operation: Operation,
    left_starts: &[u32],
    left_corners: &[i32],
    right_starts: &[u32],
    right_corners: &[i32],
    z: IntPoint,
) -> Placed
    requires { OnGrid z }
    ensures { let s = left_starts.now in
        let c = left_corners.now in
        let x = call_of operation s c right_starts.now right_corners.now in
        result ≡ placed_by x (point z) }
{
    let mut points = [[0i32; 2]; POINTS];
    let mut firsts = [0u32; FIRSTS];
    let mut numbers = [0u64; POINTS];
    let begun = pairs_work::begin_operands(
        operation,
        left_starts,
        left_corners,
        right_starts,
        right_corners,
        &mut points,
        &mut firsts,
        &mut numbers,
    );
    if begun.fault != 0 {
        return Placed::Refused(begun.fault);
    }
    Placed::At(placed_begun(begun, &firsts, &points, &numbers, z))
}
