// A path from a drawing program, exported to C: `bezinkwolu_import_path`, with no `requires`. An
// enum cannot be exported, so an item is a row of three words, its kind and the bits of two f64,
// as C's struct lies, and the item of a row a definition (specs/Rows.antt). The answer is said by
// path's definitions of those items, as path_import's is. Rows are judged and written without
// making their items, and without a jump for each kind, which took twice as long and more. Leans on
// path.
#![tactic(auto)]

ghost use Rattle.std.specs.Prelude.{◌≡◌, cond, ◌+◌, ◌<◌, T, eqb, length, take, get_or};
ghost use Rattle.std.specs.Float.{binary64};
ghost use Rattle.std.specs.Float.Ieee.{of_bits};
ghost use Rattle.std.specs.Float.Ieee.Scale.{finite};
ghost use Rattle.path.specs.Path.{every, reach, initial_point, path_counts, corners_left};
ghost use Rattle.path.specs.Judging.{is_drawn, is_next, judged_whole};
ghost use Rattle.path.specs.Writing.{write_from, Writable};
ghost use Rattle.boundary_path.specs.Rows.{item_of, items_of, Ended};

use path::{Frame, Judged, PathCounts, Point};

// An item as it is lent: its kind, and the bits of its x and y.
pub type Row = [u64; 3];

// The kinds; a line is 1.
const MOVE: u64 = 0;

const HORIZONTAL: u64 = 2;

const VERTICAL: u64 = 3;

const RELATIVE_LINE: u64 = 4;

const CLOSE: u64 = 5;

// The sign's bit, and the bits of infinity, below which without their sign are those of a finite
// number.
const SIGN: u64 = 0x8000_0000_0000_0000;

const INFINITY: u64 = 0x7ff0_0000_0000_0000;

// Whether bits are those of a finite number.
fn is_finite(bits: u64) -> bool
    ensures { result ≡ finite (of_bits binary64 bits) }
{
    bits % SIGN < INFINITY
}

// The bits that an item of a kind carries, and 0 for those of the one kind that does not.
fn carried(kind: u64, other: u64, bits: u64) -> u64
    ensures { result ≡ cond (eqb kind other) 0 bits }
{
    if kind == other { 0 } else { bits }
}

// Whether a row is a move or a line of finite numbers.
fn is_drawn(row: Row) -> bool
    ensures { result ≡ is_drawn (item_of row) }
{
    let kind = row[0];
    let x = row[1];
    let y = row[2];
    if kind >= CLOSE {
        return false;
    }
    if !is_finite(carried(kind, VERTICAL, x)) {
        return false;
    }
    is_finite(carried(kind, HORIZONTAL, y))
}

// Whether a row may stand at place i before the close: the move at first, a line behind it.
fn is_next(row: Row, i: usize) -> bool
    ensures { result ≡ is_next (eqb i 0) (item_of row) }
{
    if !is_drawn(row) {
        return false;
    }
    if i == 0 {
        return row[0] == MOVE;
    }
    row[0] != MOVE
}

// The point that a move or a line reaches.
fn reach_row(at: Point, row: Row) -> Point
    requires { T (is_drawn (item_of row)) }
    ensures { result ≡ reach at (item_of row) }
{
    let kind = row[0];
    let x = f64::from_bits(carried(kind, VERTICAL, row[1]));
    let y = f64::from_bits(carried(kind, HORIZONTAL, row[2]));
    let at_x = at.x;
    let at_y = at.y;
    if kind == RELATIVE_LINE {
        return Point {
            x: at_x + x,
            y: at_y + y,
        };
    }
    if kind == VERTICAL {
        return Point { x: at_x, y: y };
    }
    if kind == HORIZONTAL {
        return Point { x: x, y: at_y };
    }
    Point { x: x, y: y }
}

// A path judged whose row n, behind a first one, is the last and a close.
fn judge_drawn(rows: &[Row], frame: Frame, n: usize) -> Judged
    requires { Ended (items_of rows.now) n }
    ensures { result ≡ judged_whole frame (items_of rows.now) }
{
    let mut at = path::initial_point();
    let mut off = false;
    for i in 0..n {
        let row = rows[i];
        if !is_next(row, i) {
            return path::broken();
        }
        at = reach_row(at, row);
        if !path::is_within(at) {
            return path::broken();
        }
        off = path::off_so_far(frame, off, at);
    }
    path::closed(off)
}

// A path judged.
fn judge_rows(rows: &[Row], frame: Frame) -> Judged
    ensures { result ≡ judged_whole frame (items_of rows.now) }
{
    let items = rows.len();
    if items < 2 {
        return path::broken();
    }
    let last = rows[items - 1];
    if last[0] != CLOSE {
        return path::broken();
    }
    judge_drawn(rows, frame, items - 1)
}

// The corners of the first n items, on the front of the lent ones.
fn write_rows(rows: &[Row], frame: Frame, n: usize, corners: &mut [i32])
    requires { Writable frame (items_of rows.now) initial_point n corners.old × T (every is_drawn (take n (items_of rows.now))) }
    ensures { corners.new ≡ write_from frame (take n (items_of rows.now)) initial_point 0 corners.old }
{
    let mut at = path::initial_point();
    for i in 0..n {
        at = reach_row(at, rows[i]);
        path::write_corner(frame, at, i, corners);
    }
}

// path_import::import_path, over rows.
#[unsafe(no_mangle)]
pub extern "C" fn bezinkwolu_import_path(
    path: &[Row],
    frame: Frame,
    corners: &mut [i32],
) -> PathCounts
    ensures told { result ≡ path_counts frame (items_of path.now) (length corners.old) }
    ensures corners { corners.new ≡ corners_left frame (items_of path.now) corners.old }
{
    let judged = judge_rows(path, frame);
    let counts = path::told(frame, judged, path.len(), corners);
    let n = path::corners_told(counts);
    write_rows(path, frame, n, corners);
    counts
}
