// The answer of a call on two operands whose parts are unrolled to walks: refused for want of room
// (22, then 21), or all pairs written into the lent starts and corners (`hand_out`). Corners are
// counted only where the most that there can be have no room. Leans on minkowski_rows and
// minkowski_count.
#![tactic(auto)]

ghost use Rattle.std.specs.Prelude.{◌≡◌, ltb, length};
ghost use mathlib.Core.List.{flatten};
ghost use Rattle.pair_walks.specs.Walks.{contours_in};
ghost use Rattle.minkowski_answer.specs.Answer.{refusal_of, Unrolleds, WalksAnswered};

use minkowski::PairCounts;
use table::IntRect;

// A refusal: its number and zero counts.
pub fn refusal(fault: u32) -> PairCounts
    ensures { result ≡ refusal_of fault }
{
    PairCounts {
        fault,
        contours: 0,
        corners: 0,
        bounds: IntRect {
            min_x: 0,
            max_x: 0,
            min_y: 0,
            max_y: 0,
        },
    }
}

// Whether the pairs have more corners than `room`: no where the most that there can be have room,
// and else as counting tells.
fn no_room(
    firsts: &[u32],
    points: &[[i32; 2]],
    left: usize,
    right: usize,
    most: usize,
    room: usize,
) -> bool
    requires { Unrolleds firsts.now points.now left right most }
    ensures { result ≡ ltb room (length (flatten (contours_in firsts.now points.now left right))) }
{
    most > room && minkowski_count::count_all(firsts, points, left, right) > room
}

// All pairs of two operands' walks, within `bounds`, on the front of the lent starts and corners.
// Refused with 22 or 21, and nothing changed, where there are too few places.
pub fn hand_out(
    firsts: &[u32],
    points: &[[i32; 2]],
    left: usize,
    right: usize,
    most: usize,
    bounds: IntRect,
    starts: &mut [u32],
    corners: &mut [i32],
) -> PairCounts
    requires { Unrolleds firsts.now points.now left right most }
    ensures { let s = starts.old in
        let c = corners.old in
        WalksAnswered firsts.now points.now left right bounds s c result starts.new corners.new }
{
    let contours = left * right;
    if starts.len() < contours + 1 {
        return refusal(integers::fault::START_ROOM);
    }
    if no_room(
        firsts,
        points,
        left,
        right,
        most,
        corners::corner_count(corners),
    ) {
        return refusal(integers::fault::CORNER_ROOM);
    }
    let count = minkowski_rows::append_all(firsts, points, left, right, starts, corners);
    PairCounts {
        fault: 0,
        contours: contours as u32,
        corners: count as u32,
        bounds,
    }
}
