// The part table that the desks exchange: starts and corners, their rules and limits, bounds. The
// definitions are in specs/: Table (the lists), Stored (the bytes), Shown (part k of an operand);
// their laws in proofs/ (proofs/Lib.antt is the index). The functions here answer whether a table
// breaks a rule, each as its definition says, of any lent slices; the faults' order is their
// callers'. The crates table_read, table_write and table_shown, and pairs, lean on it. It leans on
// corners, plane and integers.
#![tactic(auto)]

ghost use Rattle.std.specs.Prelude.{◌≡◌, true, cond, ◌+◌, ltb};
ghost use Rattle.plane.specs.Machine.{point};
ghost use Rattle.corners.specs.Corners.{points_of};
ghost use Rattle.table.specs.Table.{starts_broken, table_broken, result_broken, within_bounds, bounds_broken};

use corners::{corner_at, corner_count};
use plane::IntPoint;

// Document 01: "Limits: 2,048 parts, 8,192 corners, 1,026 corners a contour."
pub const MAX_PARTS: usize = 2048;

pub const MAX_CORNERS: usize = 8192;

pub const MAX_CONTOUR: usize = 1026;

// What a call that writes a table answers: the fault number, 0 for none, and how many parts and
// corners were written, 0 where it refused.
#[repr(C)]
#[derive(Clone, Copy)]
pub struct Counts {
    pub fault: u32,
    pub parts: u32,
    pub corners: u32,
}

// "least and greatest x and y of the original source".
#[derive(Clone, Copy)]
pub struct IntRect {
    pub min_x: i32,
    pub max_x: i32,
    pub min_y: i32,
    pub max_y: i32,
}

// Whether one start may not follow another: it falls, or the contour between them is too long.
pub fn step_broken(limit: usize, last: usize, next: usize) -> bool
    ensures { result ≡ cond (ltb next last) true (ltb (last + limit) next) }
{
    next < last || next - last > limit
}

// Whether the starts break a rule beside `count` corners: none, not from 0, one that falls, a
// contour of more than `limit` corners, not up to the count.
pub fn starts_broken(limit: usize, count: usize, starts: &[u32]) -> bool
    ensures { result ≡ starts_broken limit count starts.now }
{
    let [first, rest @ ..] = starts else {
        return true;
    };
    if *first != 0 {
        return true;
    }
    let mut last: usize = 0;
    for start in rest {
        let next = *start as usize;
        if step_broken(limit, last, next) {
            return true;
        }
        last = next;
    }
    last != count
}

// Whether a table breaks its rules or limits (fault 7). A list of numbers of odd length does.
pub fn rules_broken(starts: &[u32], corners: &[i32]) -> bool
    ensures { result ≡ table_broken starts.now corners.now }
{
    let count = corner_count(corners);
    corners::ragged(corners)
        || starts.len() > MAX_PARTS + 1
        || count > MAX_CORNERS
        || starts_broken(MAX_CONTOUR, count, starts)
}

// Whether starts and corners break the rules of a pair result (fault 7), which the limits don't
// bind.
pub fn result_broken(starts: &[u32], corners: &[i32]) -> bool
    ensures { result ≡ result_broken starts.now corners.now }
{
    let count = corner_count(corners);
    corners::ragged(corners) || starts_broken(count, count, starts)
}

// Whether a corner lies within the bounds, their ends included.
pub fn within_bounds(bounds: IntRect, p: IntPoint) -> bool
    ensures { result ≡ within_bounds bounds (point p) }
{
    bounds.min_x <= p.x && p.x <= bounds.max_x && bounds.min_y <= p.y && p.y <= bounds.max_y
}

// Whether a least bound is above a greatest, or some corner lies outside (fault 9). A last x
// without its y is no corner.
pub fn bounds_broken(bounds: IntRect, corners: &[i32]) -> bool
    ensures { result ≡ bounds_broken bounds (points_of corners.now) }
{
    if bounds.max_x < bounds.min_x || bounds.max_y < bounds.min_y {
        return true;
    }
    for k in 0..corner_count(corners) {
        if !within_bounds(bounds, corner_at(corners, k)) {
            return true;
        }
    }
    false
}
