// Doubled areas and bounds of what is lent: of a contour (`contour_area_two`), of part k
// (`part_area_two`) and of all parts (`table_area_two`), and the bounds of all corners
// (`table_bounds`). Each takes any numbers, refuses by number, and writes nothing; its answer is a
// definition's (specs/Measured.antt). A part table will do and a pair result: the limits of a part
// table do not bind. An area is exact and has a sign, below 0 where contours run clockwise; one
// that leaves signed 64 bits is refused with 11. Leans on table_areas, mesh_bounds (bounds that a
// point is brought into), corners and table.
#![tactic(auto)]

ghost use Rattle.std.specs.Prelude.{◌≡◌, pos, neg_ℤ};
ghost use Rattle.wide.specs.Words.{value};
ghost use Rattle.corners.specs.Corners.{points_of};
ghost use Rattle.mesh_bounds.specs.Bounds.{bounds_of};
ghost use Rattle.measure.specs.Measured.{area_refused, area_told, contour_fault, table_fault, part_fault, contour_measured, part_measured, table_measured, bounds_told};

use corners::{corner_at, corner_count};
use table::IntRect;
use wide::SignedProduct;

// The fault number, 0 for none, and a doubled area, 0 where there is a fault.
#[repr(C)]
#[derive(Clone, Copy)]
pub struct Measured {
    pub fault: u32,
    pub area_two: i64,
}

// The fault number, 0 for none, and the least and greatest x and y, 0 where there is a fault.
#[repr(C)]
#[derive(Clone, Copy)]
pub struct Bounded {
    pub fault: u32,
    pub min_x: i32,
    pub max_x: i32,
    pub min_y: i32,
    pub max_y: i32,
}

// The greatest size of a number below 0 in 64 bits.
const LARGEST_BELOW: u64 = 9223372036854775808;

// What a refusal answers.
fn refused(fault: u32) -> Measured
    ensures { result ≡ area_refused fault }
{
    Measured { fault, area_two: 0 }
}

// The doubled area -size, or 11 where it leaves 64 bits.
fn told_below(size: u64) -> Measured
    ensures { result ≡ area_told (neg_ℤ (pos size)) }
{
    if size == 0 {
        return refused(0);
    }
    if size > LARGEST_BELOW {
        return refused(integers::fault::TOTAL);
    }
    Measured {
        fault: 0,
        area_two: -1 - ((size - 1) as i64),
    }
}

// A doubled area, or 11 where it leaves 64 bits.
fn told(total: SignedProduct) -> Measured
    ensures { result ≡ area_told (value total) }
{
    let words = total.words;
    if words.high != 0 {
        return refused(integers::fault::TOTAL);
    }
    if total.negative {
        return told_below(words.low);
    }
    if words.low >= LARGEST_BELOW {
        return refused(integers::fault::TOTAL);
    }
    Measured {
        fault: 0,
        area_two: words.low as i64,
    }
}

// The first of 7 (an odd length) and 2 that holds of a contour; 0 for none.
fn contour_fault(contour: &[i32]) -> u32
    ensures { result ≡ contour_fault contour.now }
{
    if corners::ragged(contour) {
        return integers::fault::RULES;
    }
    if corners::off_range(contour) {
        return integers::fault::RANGE;
    }
    0
}

// The first of 7 and 2 that holds of starts and corners; 0 for none.
fn table_fault(starts: &[u32], corners: &[i32]) -> u32
    ensures { result ≡ table_fault starts.now corners.now }
{
    if table::result_broken(starts, corners) {
        return integers::fault::RULES;
    }
    if corners::off_range(corners) {
        return integers::fault::RANGE;
    }
    0
}

// The first of 7, 2 and 12 that holds; 0 for none.
fn part_fault(starts: &[u32], corners: &[i32], k: u32) -> u32
    ensures { result ≡ part_fault starts.now corners.now k }
{
    let fault = table_fault(starts, corners);
    if fault != 0 {
        return fault;
    }
    if k as usize + 1 >= starts.len() {
        return integers::fault::PART;
    }
    0
}

// The doubled area of a contour. Refuses with 7 for an odd length, 2, 11, in this order.
pub fn contour_area_two(contour: &[i32]) -> Measured
    ensures { result ≡ contour_measured contour.now }
{
    let fault = contour_fault(contour);
    if fault != 0 {
        return refused(fault);
    }
    told(table_areas::contour_area(contour))
}

// The doubled area of part k. Refuses with 7, 2, 12, 11, in this order.
pub fn part_area_two(starts: &[u32], corners: &[i32], k: u32) -> Measured
    ensures { result ≡ part_measured starts.now corners.now k }
{
    let fault = part_fault(starts, corners, k);
    if fault != 0 {
        return refused(fault);
    }
    told(table_areas::area_at(starts, corners, k as usize))
}

// The doubled areas of all parts, added. Refuses with 7, 2, 11, in this order.
pub fn table_area_two(starts: &[u32], corners: &[i32]) -> Measured
    ensures { result ≡ table_measured starts.now corners.now }
{
    let fault = table_fault(starts, corners);
    if fault != 0 {
        return refused(fault);
    }
    told(table_areas::total_area(starts, corners))
}

// The least and greatest x and y of some corners; 0 where there are none.
fn corner_bounds(corners: &[i32]) -> IntRect
    ensures { result ≡ bounds_of (points_of corners.now) }
{
    let n = corner_count(corners);
    if n == 0 {
        return IntRect {
            min_x: 0,
            max_x: 0,
            min_y: 0,
            max_y: 0,
        };
    }
    let mut b = mesh_bounds::bounds_of(corner_at(corners, 0));
    for k in 0..n {
        b = mesh_bounds::with_point(b, corner_at(corners, k));
    }
    b
}

// The least and greatest x and y of all corners; 0 where there are none. Refuses with 7, 2, in this
// order.
pub fn table_bounds(starts: &[u32], corners: &[i32]) -> Bounded
    ensures { result ≡ bounds_told starts.now corners.now }
{
    let fault = table_fault(starts, corners);
    if fault != 0 {
        return Bounded {
            fault,
            min_x: 0,
            max_x: 0,
            min_y: 0,
            max_y: 0,
        };
    }
    let b = corner_bounds(corners);
    Bounded {
        fault: 0,
        min_x: b.min_x,
        max_x: b.max_x,
        min_y: b.min_y,
        max_y: b.max_y,
    }
}
