// What boundary_pairs promises, to C.
ghost use Rattle.std.specs.Prelude.{◌≡◌, false, true};
ghost use Rattle.minkowski.specs.Pairs.{pairs_counts, pairs_starts, pairs_corners};
ghost use Rattle.boundary_pairs.specs.Told.{lent, told_counts};

use boundary_pairs::{Bounds, ToldPairs};

// minkowski_parts::sum_parts.
#[unsafe(no_mangle)]
pub extern "C" fn bezinkwolu_sum_parts(
    left_starts: &[u32],
    left_corners: &[i32],
    left_bounds: Bounds,
    right_starts: &[u32],
    right_corners: &[i32],
    right_bounds: Bounds,
    starts: &mut [u32],
    corners: &mut [i32],
) -> ToldPairs
    ensures { let left = lent left_starts.now left_corners.now left_bounds in
        let right = lent right_starts.now right_corners.now right_bounds in
        let s = starts.old in
        let c = corners.old in
        (result ≡ told_counts (pairs_counts false left right s c))
        × (starts.new ≡ pairs_starts false left right s c)
        × (corners.new ≡ pairs_corners false left right s c) }
{
    boundary_pairs::bezinkwolu_sum_parts(
        left_starts,
        left_corners,
        left_bounds,
        right_starts,
        right_corners,
        right_bounds,
        starts,
        corners,
    )
}

// minkowski_parts::difference_parts.
#[unsafe(no_mangle)]
pub extern "C" fn bezinkwolu_difference_parts(
    left_starts: &[u32],
    left_corners: &[i32],
    left_bounds: Bounds,
    right_starts: &[u32],
    right_corners: &[i32],
    right_bounds: Bounds,
    starts: &mut [u32],
    corners: &mut [i32],
) -> ToldPairs
    ensures { let left = lent left_starts.now left_corners.now left_bounds in
        let right = lent right_starts.now right_corners.now right_bounds in
        let s = starts.old in
        let c = corners.old in
        (result ≡ told_counts (pairs_counts true left right s c))
        × (starts.new ≡ pairs_starts true left right s c)
        × (corners.new ≡ pairs_corners true left right s c) }
{
    boundary_pairs::bezinkwolu_difference_parts(
        left_starts,
        left_corners,
        left_bounds,
        right_starts,
        right_corners,
        right_bounds,
        starts,
        corners,
    )
}
