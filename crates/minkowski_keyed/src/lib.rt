// All pairs of two operands that 7, 2 and 9 are not told of, merged by numbers: as minkowski_work's
// `pairs_over`, with a number a point made once (pair_numbers) and four pairs merged side by side
// (minkowski_chains). `pairs_keyed` has the answer of `pairs_over`, word for word. Leans on
// minkowski_work, pair_numbers, minkowski_chains and minkowski_counted.
#![tactic(auto)]

ghost use Rattle.std.specs.Prelude.{◌≤◌, length};
ghost use Rattle.pair_numbers.specs.Numbers.{Keyed};
ghost use Rattle.minkowski_answer.specs.Answer.{Unrolleds, WalksAnswered};
ghost use Rattle.minkowski_work.specs.Scratch.{call_of, Answers, AcceptedWithRoom};

use minkowski::{Operation, PairCounts};
use table::IntRect;

// All pairs of two operands' walks with their numbers, within `bounds`, on the front of the lent
// starts and corners. Refused with 22 or 21, and nothing changed, where there are too few places.
fn hand_out_keyed(
    firsts: &[u32],
    points: &[[i32; 2]],
    numbers: &[u64],
    left: usize,
    right: usize,
    most: usize,
    bounds: IntRect,
    starts: &mut [u32],
    corners: &mut [i32],
) -> PairCounts
    requires walks { Unrolleds firsts.now points.now left right most }
    requires numbers { Keyed firsts.now points.now numbers.now left right }
    ensures { let s = starts.old in
        let c = corners.old in
        WalksAnswered firsts.now points.now left right bounds s c result starts.new corners.new }
{
    let contours = left * right;
    if starts.len() < contours + 1 {
        return minkowski_answer::refusal(integers::fault::START_ROOM);
    }
    let room = corners::corner_count(corners);
    if minkowski_counted::no_room_keyed(firsts, points, numbers, left, right, most, room) {
        return minkowski_answer::refusal(integers::fault::CORNER_ROOM);
    }
    let count = minkowski_chains::append_keyed(
        firsts, points, numbers, left, right, starts, corners,
    );
    PairCounts {
        fault: 0,
        contours: contours as u32,
        corners: count as u32,
        bounds,
    }
}

// All pairs of two operands that 7, 2 and 9 are not told of, in work buffers that hold the points
// of both and a number a point.
pub fn pairs_keyed(
    operation: Operation,
    left_starts: &[u32],
    left_corners: &[i32],
    right_starts: &[u32],
    right_corners: &[i32],
    points: &mut [[i32; 2]],
    firsts: &mut [u32],
    numbers: &mut [u64],
    starts: &mut [u32],
    corners: &mut [i32],
) -> PairCounts
    requires ready { let x = call_of operation left_starts.now left_corners.now right_starts.now right_corners.now in
        AcceptedWithRoom x points.old firsts.old }
    requires numbers { length points.old ≤ length numbers.old }
    ensures { let x = call_of operation left_starts.now left_corners.now right_starts.now right_corners.now in
        Answers x starts.old corners.old result starts.new corners.new }
{
    let judged = minkowski_work::walks_fault(
        operation,
        left_starts,
        left_corners,
        right_starts,
        right_corners,
        points,
        firsts,
    );
    if let Err(fault) = judged {
        return minkowski_answer::refusal(fault.number());
    }
    let reflected = operation.reflected;
    let bounds = minkowski_faults::result_bounds(operation.left, operation.right, reflected);
    let most = minkowski_work::most_corners(left_starts, left_corners, right_starts, right_corners);
    let left = left_starts.len() - 1;
    let right = right_starts.len() - 1;
    pair_numbers::number_walks(firsts, points, left, right, numbers);
    hand_out_keyed(
        firsts, points, numbers, left, right, most, bounds, starts, corners,
    )
}
