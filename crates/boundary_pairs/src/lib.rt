// All pairs, exported to C for the package (./package) and the runs beside the Rust
// (oracle/beside): one thin function over each call, with no `requires`. Slices pass as a pointer
// and a length, bounds by value. The answer and both lent buffers as the call returns equal the
// definitions of minkowski/specs/Pairs.antt; bounds and answer are laid out for C
// (specs/Told.antt). Leans on minkowski_parts.
#![tactic(auto)]

ghost use Rattle.std.specs.Prelude.{◌≡◌, false, true};
ghost use Rattle.minkowski.specs.Pairs.{pairs_counts, pairs_starts, pairs_corners};
ghost use Rattle.boundary_pairs.specs.Told.{rect_of, lent, told_counts};

use minkowski::PairCounts;
use table::IntRect;

// table::IntRect for C.
#[repr(C)]
#[derive(Clone, Copy)]
pub struct Bounds {
    pub min_x: i32,
    pub max_x: i32,
    pub min_y: i32,
    pub max_y: i32,
}

// minkowski::PairCounts for C.
#[repr(C)]
#[derive(Clone, Copy)]
pub struct ToldPairs {
    pub fault: u32,
    pub contours: u32,
    pub corners: u32,
    pub bounds: Bounds,
}

// Bounds as the calls take them.
fn rect(b: Bounds) -> IntRect
    ensures { result ≡ rect_of b }
{
    IntRect {
        min_x: b.min_x,
        max_x: b.max_x,
        min_y: b.min_y,
        max_y: b.max_y,
    }
}

// An answer as it is told.
fn told(answer: PairCounts) -> ToldPairs
    ensures { result ≡ told_counts answer }
{
    let b = answer.bounds;
    ToldPairs {
        fault: answer.fault,
        contours: answer.contours,
        corners: answer.corners,
        bounds: Bounds {
            min_x: b.min_x,
            max_x: b.max_x,
            min_y: b.min_y,
            max_y: b.max_y,
        },
    }
}

// minkowski_parts::sum_parts.
#[unsafe(no_mangle)]
pub extern "C" fn bezinkwolu_sum_parts(
    left_starts: &[u32],
    left_corners: &[i32],
    left_bounds: Bounds,
    right_starts: &[u32],
    right_corners: &[i32],
    right_bounds: Bounds,
    starts: &mut [u32],
    corners: &mut [i32],
) -> ToldPairs
    ensures { let left = lent left_starts.now left_corners.now left_bounds in
        let right = lent right_starts.now right_corners.now right_bounds in
        let s = starts.old in
        let c = corners.old in
        (result ≡ told_counts (pairs_counts false left right s c))
        × (starts.new ≡ pairs_starts false left right s c)
        × (corners.new ≡ pairs_corners false left right s c) }
{
    let left = rect(left_bounds);
    let right = rect(right_bounds);
    let answer = minkowski_parts::sum_parts(
        left_starts,
        left_corners,
        left,
        right_starts,
        right_corners,
        right,
        starts,
        corners,
    );
    told(answer)
}

// minkowski_parts::difference_parts.
#[unsafe(no_mangle)]
pub extern "C" fn bezinkwolu_difference_parts(
    left_starts: &[u32],
    left_corners: &[i32],
    left_bounds: Bounds,
    right_starts: &[u32],
    right_corners: &[i32],
    right_bounds: Bounds,
    starts: &mut [u32],
    corners: &mut [i32],
) -> ToldPairs
    ensures { let left = lent left_starts.now left_corners.now left_bounds in
        let right = lent right_starts.now right_corners.now right_bounds in
        let s = starts.old in
        let c = corners.old in
        (result ≡ told_counts (pairs_counts true left right s c))
        × (starts.new ≡ pairs_starts true left right s c)
        × (corners.new ≡ pairs_corners true left right s c) }
{
    let left = rect(left_bounds);
    let right = rect(right_bounds);
    let answer = minkowski_parts::difference_parts(
        left_starts,
        left_corners,
        left,
        right_starts,
        right_corners,
        right,
        starts,
        corners,
    );
    told(answer)
}
