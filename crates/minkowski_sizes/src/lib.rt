// All pairs of two operands in local buffers of their size: the points of any two operands, or of
// two medium, small or tiny ones, which are faster to set up; by numbers, but for tiny operands and
// few pairs. Each size answers as `Answers` of minkowski_work/specs/Scratch.antt says, with its
// refusals. Leans on minkowski_faults, minkowski_work and minkowski_keyed.
#![tactic(auto)]

ghost use Rattle.std.specs.Prelude.{◌≡◌, false, true};
ghost use Rattle.minkowski_work.specs.Scratch.{call_of, Accepted, Answers};
ghost use Rattle.minkowski_sizes.specs.Sizes.{tiny_places, small_places, medium_places, FitsIn, RoomIn, few_pairs, FewAsked};

use minkowski::{Operation, PairCounts};

// An operand has at most this many starts and corners together to be a medium one, a small one, or
// a tiny one, as of one triangle.
pub const MEDIUM: usize = 2048;

pub const SMALL: usize = 256;

pub const TINY: usize = 16;

// The places of work buffers for two operands of each size.
const MEDIUM_WORK: usize = 2 * MEDIUM;

const SMALL_WORK: usize = 2 * SMALL;

const TINY_WORK: usize = 2 * TINY;

// Those for any two operands: each has at most 8,192 corners, and one more point for each of 2,048
// parts.
const ANY_POINTS: usize = 2 * (table::MAX_CORNERS + table::MAX_PARTS);

const ANY_FIRSTS: usize = 2 * (table::MAX_PARTS + 1);

// Whether an operand has at most so many starts and corners together.
fn fits(starts: &[u32], corners: &[i32], places: usize) -> bool
    ensures { result ≡ true → FitsIn places starts.now corners.now }
{
    starts.len() <= places && corners::corner_count(corners) <= places - starts.len()
}

// Whether both have.
pub fn both_fit(
    left_starts: &[u32],
    left_corners: &[i32],
    right_starts: &[u32],
    right_corners: &[i32],
    places: usize,
) -> bool
    ensures { result ≡ true →
        FitsIn places left_starts.now left_corners.now
        × FitsIn places right_starts.now right_corners.now }
{
    fits(left_starts, left_corners, places) && fits(right_starts, right_corners, places)
}

// In local buffers of a size that holds the points of both operands. It is put into no caller, so
// that no frame has larger buffers than its size: a large one takes longer to set up than a pair of
// triangles to merge.
#[inline(never)]
fn pairs_in<const POINTS: usize, const FIRSTS: usize>(
    operation: Operation,
    left_starts: &[u32],
    left_corners: &[i32],
    right_starts: &[u32],
    right_corners: &[i32],
    starts: &mut [u32],
    corners: &mut [i32],
) -> PairCounts
    requires accepted { Accepted (call_of operation left_starts.now left_corners.now right_starts.now right_corners.now) }
    requires room { RoomIn POINTS FIRSTS left_starts.now left_corners.now right_starts.now right_corners.now }
    ensures { let x = call_of operation left_starts.now left_corners.now right_starts.now right_corners.now in
        Answers x starts.old corners.old result starts.new corners.new }
{
    let mut points = [[0i32; 2]; POINTS];
    let mut firsts = [0u32; FIRSTS];
    minkowski_work::pairs_over(
        operation,
        left_starts,
        left_corners,
        right_starts,
        right_corners,
        &mut points,
        &mut firsts,
        starts,
        corners,
    )
}

// The same by numbers.
#[inline(never)]
fn keyed_in<const POINTS: usize, const FIRSTS: usize>(
    operation: Operation,
    left_starts: &[u32],
    left_corners: &[i32],
    right_starts: &[u32],
    right_corners: &[i32],
    starts: &mut [u32],
    corners: &mut [i32],
) -> PairCounts
    requires accepted { Accepted (call_of operation left_starts.now left_corners.now right_starts.now right_corners.now) }
    requires room { RoomIn POINTS FIRSTS left_starts.now left_corners.now right_starts.now right_corners.now }
    ensures { let x = call_of operation left_starts.now left_corners.now right_starts.now right_corners.now in
        Answers x starts.old corners.old result starts.new corners.new }
{
    let mut points = [[0i32; 2]; POINTS];
    let mut firsts = [0u32; FIRSTS];
    let mut numbers = [0u64; POINTS];
    minkowski_keyed::pairs_keyed(
        operation,
        left_starts,
        left_corners,
        right_starts,
        right_corners,
        &mut points,
        &mut firsts,
        &mut numbers,
        starts,
        corners,
    )
}

// All pairs of two tiny operands.
pub fn tiny_pairs(
    operation: Operation,
    left_starts: &[u32],
    left_corners: &[i32],
    right_starts: &[u32],
    right_corners: &[i32],
    starts: &mut [u32],
    corners: &mut [i32],
) -> PairCounts
    requires { FitsIn tiny_places left_starts.now left_corners.now × FitsIn tiny_places right_starts.now right_corners.now }
    ensures { let x = call_of operation left_starts.now left_corners.now right_starts.now right_corners.now in
        Answers x starts.old corners.old result starts.new corners.new }
{
    let judged = minkowski_faults::operands_fault(
        left_starts,
        left_corners,
        operation.left,
        right_starts,
        right_corners,
        operation.right,
    );
    if let Err(fault) = judged {
        return minkowski_answer::refusal(fault.number());
    }
    pairs_in::<TINY_WORK, TINY_WORK>(
        operation,
        left_starts,
        left_corners,
        right_starts,
        right_corners,
        starts,
        corners,
    )
}

// Whether so few pairs are asked for that numbers, two divisions an edge, would not pay: together
// they have less than four times the operands' corners.
fn few_pairs(
    left_starts: &[u32],
    left_corners: &[i32],
    right_starts: &[u32],
    right_corners: &[i32],
) -> bool
    requires { FewAsked left_starts.now left_corners.now right_starts.now right_corners.now }
    ensures { result ≡ few_pairs left_starts.now left_corners.now right_starts.now right_corners.now }
{
    let a = corners::corner_count(left_corners);
    let b = corners::corner_count(right_corners);
    right_starts.len() * a + left_starts.len() * b < 4 * (a + b)
}

// All pairs of two small operands.
pub fn small_pairs(
    operation: Operation,
    left_starts: &[u32],
    left_corners: &[i32],
    right_starts: &[u32],
    right_corners: &[i32],
    starts: &mut [u32],
    corners: &mut [i32],
) -> PairCounts
    requires { FitsIn small_places left_starts.now left_corners.now × FitsIn small_places right_starts.now right_corners.now }
    ensures { let x = call_of operation left_starts.now left_corners.now right_starts.now right_corners.now in
        Answers x starts.old corners.old result starts.new corners.new }
{
    let judged = minkowski_faults::operands_fault(
        left_starts,
        left_corners,
        operation.left,
        right_starts,
        right_corners,
        operation.right,
    );
    if let Err(fault) = judged {
        return minkowski_answer::refusal(fault.number());
    }
    if few_pairs(left_starts, left_corners, right_starts, right_corners) {
        pairs_in::<SMALL_WORK, SMALL_WORK>(
            operation,
            left_starts,
            left_corners,
            right_starts,
            right_corners,
            starts,
            corners,
        )
    } else {
        keyed_in::<SMALL_WORK, SMALL_WORK>(
            operation,
            left_starts,
            left_corners,
            right_starts,
            right_corners,
            starts,
            corners,
        )
    }
}

// All pairs of any two operands.
pub fn large_pairs(
    operation: Operation,
    left_starts: &[u32],
    left_corners: &[i32],
    right_starts: &[u32],
    right_corners: &[i32],
    starts: &mut [u32],
    corners: &mut [i32],
) -> PairCounts
    ensures { let x = call_of operation left_starts.now left_corners.now right_starts.now right_corners.now in
        Answers x starts.old corners.old result starts.new corners.new }
{
    let judged = minkowski_faults::operands_fault(
        left_starts,
        left_corners,
        operation.left,
        right_starts,
        right_corners,
        operation.right,
    );
    if let Err(fault) = judged {
        return minkowski_answer::refusal(fault.number());
    }
    if few_pairs(left_starts, left_corners, right_starts, right_corners) {
        pairs_in::<ANY_POINTS, ANY_FIRSTS>(
            operation,
            left_starts,
            left_corners,
            right_starts,
            right_corners,
            starts,
            corners,
        )
    } else if both_fit(
        left_starts,
        left_corners,
        right_starts,
        right_corners,
        MEDIUM,
    ) {
        keyed_in::<MEDIUM_WORK, MEDIUM_WORK>(
            operation,
            left_starts,
            left_corners,
            right_starts,
            right_corners,
            starts,
            corners,
        )
    } else {
        keyed_in::<ANY_POINTS, ANY_FIRSTS>(
            operation,
            left_starts,
            left_corners,
            right_starts,
            right_corners,
            starts,
            corners,
        )
    }
}
