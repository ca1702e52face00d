// The mesh file and its listing: the area program's input and output. The definitions are in
// specs/; `strategy` reads the file's number of a split. Leans on split and, for numbers as text,
// on text.
#![tactic(auto)]

ghost use Rattle.std.specs.Prelude.{◌≡◌};
ghost use Rattle.listing.specs.File.{strategy_of};

use split::ConvexSplitStrategy;

// The split of a number: "0 ear, 1 fan, 2 centroid" (document 01).
pub fn strategy(n: u32) -> ConvexSplitStrategy
    ensures { result ≡ strategy_of n }
{
    match n {
        0 => ConvexSplitStrategy::EarClipping,
        1 => ConvexSplitStrategy::Fan,
        _ => ConvexSplitStrategy::Centroid,
    }
}
