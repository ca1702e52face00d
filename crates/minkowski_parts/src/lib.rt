// All pair sums and differences (int/minkowski.rs): `sum_parts` and `difference_parts`, with no
// `requires`. Their answer and both lent buffers equal `pairs_counts`, `pairs_starts` and
// `pairs_corners` of minkowski/specs/Pairs.antt. Each is the answer of the size that the operands
// have, by minkowski_sizes, on which they lean.
#![tactic(auto)]

ghost use Rattle.std.specs.Prelude.{◌≡◌, false, true};
ghost use Rattle.minkowski.specs.Pairs.{pairs_counts, pairs_starts, pairs_corners};
ghost use Rattle.minkowski_faults.specs.Kinds.{operand};
ghost use Rattle.minkowski_work.specs.Scratch.{call_of, Answers};

use minkowski::{Operation, PairCounts};
use table::IntRect;

// All pairs of two operands, by the size that they have.
fn pairs(
    operation: Operation,
    left_starts: &[u32],
    left_corners: &[i32],
    right_starts: &[u32],
    right_corners: &[i32],
    starts: &mut [u32],
    corners: &mut [i32],
) -> PairCounts
    ensures { let x = call_of operation left_starts.now left_corners.now right_starts.now right_corners.now in
        Answers x starts.old corners.old result starts.new corners.new }
{
    if minkowski_sizes::both_fit(
        left_starts,
        left_corners,
        right_starts,
        right_corners,
        minkowski_sizes::TINY,
    ) {
        minkowski_sizes::tiny_pairs(
            operation,
            left_starts,
            left_corners,
            right_starts,
            right_corners,
            starts,
            corners,
        )
    } else if minkowski_sizes::both_fit(
        left_starts,
        left_corners,
        right_starts,
        right_corners,
        minkowski_sizes::SMALL,
    ) {
        minkowski_sizes::small_pairs(
            operation,
            left_starts,
            left_corners,
            right_starts,
            right_corners,
            starts,
            corners,
        )
    } else {
        minkowski_sizes::large_pairs(
            operation,
            left_starts,
            left_corners,
            right_starts,
            right_corners,
            starts,
            corners,
        )
    }
}

// The sums of each left part and each right part: one contour a pair, starts and corners (x, y in
// turn) on the front of the lent buffers. A refusal (7, 2, 9, 8, 10, 20, 22 or 21) gives zero
// counts and changes nothing.
pub fn sum_parts(
    left_starts: &[u32],
    left_corners: &[i32],
    left_bounds: IntRect,
    right_starts: &[u32],
    right_corners: &[i32],
    right_bounds: IntRect,
    starts: &mut [u32],
    corners: &mut [i32],
) -> PairCounts
    ensures { let left = operand left_starts.now left_corners.now left_bounds in
        let right = operand right_starts.now right_corners.now right_bounds in
        let s = starts.old in
        let c = corners.old in
        (result ≡ pairs_counts false left right s c)
        × (starts.new ≡ pairs_starts false left right s c)
        × (corners.new ≡ pairs_corners false left right s c) }
{
    let operation = Operation {
        left: left_bounds,
        right: right_bounds,
        reflected: false,
    };
    pairs(
        operation,
        left_starts,
        left_corners,
        right_starts,
        right_corners,
        starts,
        corners,
    )
}

// The differences, left less right, in the same way: sums with the right parts turned through the
// origin.
pub fn difference_parts(
    left_starts: &[u32],
    left_corners: &[i32],
    left_bounds: IntRect,
    right_starts: &[u32],
    right_corners: &[i32],
    right_bounds: IntRect,
    starts: &mut [u32],
    corners: &mut [i32],
) -> PairCounts
    ensures { let left = operand left_starts.now left_corners.now left_bounds in
        let right = operand right_starts.now right_corners.now right_bounds in
        let s = starts.old in
        let c = corners.old in
        (result ≡ pairs_counts true left right s c)
        × (starts.new ≡ pairs_starts true left right s c)
        × (corners.new ≡ pairs_corners true left right s c) }
{
    let operation = Operation {
        left: left_bounds,
        right: right_bounds,
        reflected: true,
    };
    pairs(
        operation,
        left_starts,
        left_corners,
        right_starts,
        right_corners,
        starts,
        corners,
    )
}
