// A lent list of corners, x and y in turn: how many it has, one read, one put, a piece of it, its
// front, and whether a number is out of range. No other crate knows its form: all code counts,
// cuts, reads and stores such a list through these functions; `WIDTH` is for the size of a list
// that is made and for a list in bytes.
// The definitions are in specs/Corners.antt, their laws in proofs/ (proofs/Lib.antt is the index).
// Leans on plane and integers.
#![tactic(auto)]

ghost use Rattle.std.specs.Prelude.{◌≡◌, true, cond, ◌+◌, ◌*◌, ◌<◌, ◌≤◌, length, get_or};
ghost use Rattle.plane.specs.Plane.{O, in_range};
ghost use Rattle.plane.specs.Machine.{point};
ghost use Rattle.corners.specs.Copying.{Copied};
ghost use Rattle.corners.specs.Corners.{points_of, off_range, ragged, with_corner, corners_between, front_corners, corner_place};

use plane::IntPoint;

// How many numbers a corner is.
pub const WIDTH: usize = 2;

// How many corners there are; a last x without its y is no corner.
pub fn corner_count(corners: &[i32]) -> usize
    ensures { result ≡ length (points_of corners.now) }
{
    corners.len() / WIDTH
}

// Whether the last corner is not whole.
pub fn ragged(corners: &[i32]) -> bool
    ensures { result ≡ ragged corners.now }
{
    corners.len() % WIDTH != 0
}

// Corner k.
pub fn corner_at(corners: &[i32], k: usize) -> IntPoint
    requires { k < length (points_of corners.now) }
    ensures { point result ≡ get_or (points_of corners.now) k O }
{
    IntPoint {
        x: corners[WIDTH * k],
        y: corners[WIDTH * k + 1],
    }
}

// Corner k becomes p.
pub fn put_corner(corners: &mut [i32], k: usize, p: IntPoint)
    requires { k < length (points_of corners.old) }
    ensures { corners.new ≡ with_corner corners.old k (point p) }
{
    let i = WIDTH * k;
    corners[i] = p.x;
    corners[i + 1] = p.y;
}

// The corners from `from` to before `to`, where they lie.
pub fn part<'a>(corners: &'a [i32], from: usize, to: usize) -> &'a [i32]
    requires { (from ≤ to) × (to ≤ length (points_of corners.now)) }
    ensures numbers { result.now ≡ corners_between from to corners.now }
    ensures placed { result.ref_ptr ≡ corner_place corners.entry.ref_ptr from }
{
    let first = WIDTH * from;
    let end = WIDTH * to;
    &corners[first..end]
}

// The first `count` corners, where they lie.
pub fn front<'a>(corners: &'a [i32], count: usize) -> &'a [i32]
    requires { count ≤ length (points_of corners.now) }
    ensures numbers { result.now ≡ front_corners count corners.now }
    ensures placed { result.ref_ptr ≡ corners.entry.ref_ptr }
{
    let end = WIDTH * count;
    &corners[..end]
}

// The first `count` corners of `from` are put after the first `at` of `out`.
pub fn copy_corners(from: &[i32], count: usize, out: &mut [i32], at: usize)
    requires { (2 * count ≤ length from.now) × (2 * (at + count) ≤ length out.old) }
    ensures { Copied from.now at (2 * count) out.old out.new }
{
    let first = WIDTH * at;
    let end = WIDTH * (at + count);
    out[first..end].copy_from_slice(&from[..WIDTH * count]);
}

// Whether some number is not strictly between -2^30 and 2^30 (fault 2). All are looked at, for a
// loop without a way out is done many numbers at a time.
pub fn off_range(numbers: &[i32]) -> bool
    ensures { result ≡ off_range numbers.now }
{
    let mut off = false;
    for z in numbers {
        off |= !plane::in_range(*z);
    }
    off
}
