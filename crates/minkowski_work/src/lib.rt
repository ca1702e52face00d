// All pairs of two operands that 7, 2 and 9 are not told of, in work buffers that hold the points
// of both: each part is unrolled to points once (8) and the result is judged (10, 20) by
// `walks_fault`, which leaves the walks there, the left operand's first (`WalksTold` of
// specs/Scratch.antt); `pairs_over` merges the pairs into the lent buffers once there is room (22,
// 21), its answer being `Answers`. Leans on minkowski_faults, pair_unroll_all and minkowski_answer.
#![tactic(auto)]

ghost use Rattle.std.specs.Prelude.{◌≡◌, false, ◌+◌, ◌*◌, ◌/◌, length};
ghost use Rattle.faults.specs.Told.{told};
ghost use Rattle.table.specs.Table.{table_broken, part_count};
ghost use Rattle.minkowski_work.specs.Scratch.{call_of, Answers, AcceptedWithRoom, WalksTold};

use faults::Fault;
use minkowski::{Operation, PairCounts};

// How many corners all pairs have at most: R for each left one and L for each right one.
pub fn most_corners(
    left_starts: &[u32],
    left_corners: &[i32],
    right_starts: &[u32],
    right_corners: &[i32],
) -> usize
    requires { (table_broken left_starts.now left_corners.now ≡ false)
        × (table_broken right_starts.now right_corners.now ≡ false) }
    ensures { result ≡
        part_count right_starts.now * (length left_corners.now / 2)
        + part_count left_starts.now * (length right_corners.now / 2) }
{
    let l = left_starts.len() - 1;
    let r = right_starts.len() - 1;
    r * corners::corner_count(left_corners) + l * corners::corner_count(right_corners)
}

// Unrolls two operands that 7, 2 and 9 are not told of, each part to points once, and judges the
// result: the first of 8, 10 and 20 that holds. Where none does, the work buffers hold the
// walks of both.
pub fn walks_fault(
    operation: Operation,
    left_starts: &[u32],
    left_corners: &[i32],
    right_starts: &[u32],
    right_corners: &[i32],
    points: &mut [[i32; 2]],
    firsts: &mut [u32],
) -> Result<(), Fault>
    requires { let x = call_of operation left_starts.now left_corners.now right_starts.now right_corners.now in
        AcceptedWithRoom x points.old firsts.old }
    ensures { let x = call_of operation left_starts.now left_corners.now right_starts.now right_corners.now in
        WalksTold x points.new firsts.new (told result) }
{
    let reflected = operation.reflected;
    points::put_start(firsts, 0, 0);
    if pair_unroll_all::unroll_all(left_starts, left_corners, false, 0, points, firsts) {
        return Err(Fault::Winding);
    }
    let left = left_starts.len() - 1;
    if pair_unroll_all::unroll_all(right_starts, right_corners, reflected, left, points, firsts) {
        return Err(Fault::Winding);
    }
    let bounds = minkowski_faults::result_bounds(operation.left, operation.right, reflected);
    minkowski_faults::result_fault(bounds, left_starts, right_starts)
}

// All pairs of two operands that 7, 2 and 9 are not told of, in work buffers that hold the points
// of both.
pub fn pairs_over(
    operation: Operation,
    left_starts: &[u32],
    left_corners: &[i32],
    right_starts: &[u32],
    right_corners: &[i32],
    points: &mut [[i32; 2]],
    firsts: &mut [u32],
    starts: &mut [u32],
    corners: &mut [i32],
) -> PairCounts
    requires { let x = call_of operation left_starts.now left_corners.now right_starts.now right_corners.now in
        AcceptedWithRoom x points.old firsts.old }
    ensures { let x = call_of operation left_starts.now left_corners.now right_starts.now right_corners.now in
        Answers x starts.old corners.old result starts.new corners.new }
{
    let judged = walks_fault(
        operation,
        left_starts,
        left_corners,
        right_starts,
        right_corners,
        points,
        firsts,
    );
    if let Err(fault) = judged {
        return minkowski_answer::refusal(fault.number());
    }
    let reflected = operation.reflected;
    let bounds = minkowski_faults::result_bounds(operation.left, operation.right, reflected);
    let most = most_corners(left_starts, left_corners, right_starts, right_corners);
    let left = left_starts.len() - 1;
    let right = right_starts.len() - 1;
    minkowski_answer::hand_out(firsts, points, left, right, most, bounds, starts, corners)
}
