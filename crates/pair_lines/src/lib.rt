// The lines that the pairs program prints (specs/Lines.antt), put on the front of lent bytes:
// `put_head` the head line, `put_line` the line of one pair of unrolled walks, merged by numbers
// into a work buffer. By the law `line-of-pair` it is the line of the pair's contour, and a buffer
// of 53,399 bytes holds any. Leans on text and minkowski_order.
#![tactic(auto)]

ghost use Rattle.std.specs.Prelude.{◌+◌, ◌≤◌, length};
ghost use Rattle.corners.specs.Corners.{points_of};
ghost use Rattle.text.specs.Put.{PutText};
ghost use Rattle.pair_walks.specs.Walks.{pair_in};
ghost use Rattle.pair_lines.specs.Lines.{bounds_text, pairs_head, pair_line};
ghost use Rattle.pair_lines.specs.Putting.{Puttable};

use table::IntRect;

// " bounds ", then the bounds.
fn put_bounds(bounds: IntRect, out: &mut [u8], at: usize) -> usize
    requires { at + length (bounds_text bounds) ≤ length out.old }
    ensures { PutText (bounds_text bounds) at out.old out.new result }
{
    let least_x = text::put_word_signed(b" bounds ", bounds.min_x, out, at);
    let greatest_x = text::put_word_signed(b" ", bounds.max_x, out, least_x);
    let least_y = text::put_word_signed(b" ", bounds.min_y, out, greatest_x);
    text::put_word_signed(b" ", bounds.max_y, out, least_y)
}

// The head line: how many contours and corners there are, and the result's bounds.
pub fn put_head(contours: u64, corners: u64, bounds: IntRect, out: &mut [u8]) -> usize
    requires { length (pairs_head contours corners bounds) ≤ length out.old }
    ensures { PutText (pairs_head contours corners bounds) 0 out.old out.new result }
{
    let first = text::put_word_decimal(b"contours ", contours, out, 0);
    let second = text::put_word_decimal(b" corners ", corners, out, first);
    let third = put_bounds(bounds, out, second);
    text::put_bytes(b"\n", out, third)
}

// The line of left part i and right part j, whose contour is lent as numbers.
fn put_contour(i: u64, j: u64, corners: &[i32], out: &mut [u8]) -> usize
    requires { length (pair_line i j (points_of corners.now)) ≤ length out.old }
    ensures { PutText (pair_line i j (points_of corners.now)) 0 out.old out.new result }
{
    let count = corners::corner_count(corners);
    let left = text::put_decimal(i, out, 0);
    let right = text::put_word_decimal(b" ", j, out, left);
    let size = text::put_word_decimal(b" ", count as u64, out, right);
    let after = text::put_corners(corners, out, size);
    text::put_bytes(b"\n", out, after)
}

// The line of left walk p and right walk q, whose points have their numbers.
pub fn put_line(
    firsts: &[u32],
    points: &[[i32; 2]],
    numbers: &[u64],
    left: usize,
    right: usize,
    p: usize,
    q: usize,
    work: &mut [i32],
    out: &mut [u8],
) -> usize
    requires { Puttable firsts.now points.now numbers.now left right p q work.old out.old }
    ensures { PutText (pair_line p q (pair_in firsts.now points.now left right p q)) 0 out.old out.new result }
{
    let count = minkowski_order::merge_pair(firsts, points, numbers, left, right, p, q, work);
    put_contour(p as u64, q as u64, corners::front(work, count), out)
}
