// Splitting parts past a corner limit: advanced/convex.rs, second half, and geom/centroid.rs. The
// definitions are in specs/. Leans on convex.
#![tactic(auto)]

ghost use Rattle.std.specs.Prelude.{◌≡◌};
ghost use Rattle.split.specs.Splitting.{raised};

// How a contour past the limit is split (document 01, "Splitting past a limit m").
#[derive(Clone, Copy)]
pub enum ConvexSplitStrategy {
    EarClipping,
    Fan,
    Centroid,
}

// The least corner limit: "it raises any limit below 3 to 3" (document 01).
pub const MIN_LIMIT: u32 = 3;

// A limit below 3 raised to 3.
pub fn raised(limit: u32) -> usize
    ensures { result ≡ raised limit }
{
    limit.max(MIN_LIMIT) as usize
}
