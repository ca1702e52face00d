// A pair of walks begun: `new` for a sum, `difference` with the second walk reflected (the Rust's
// `ConvexSum`). They take any contours and refuse with 7, 2, 8, 20, in this order, each left before
// right. Leans on walk_begin, walk_read, table (the range).
#![tactic(auto)]

ghost use Rattle.std.specs.Prelude.{◌≡◌, true, false};
ghost use Rattle.corners.specs.Corners.{off_range};
ghost use Rattle.walk.specs.Calls.{length_broken, paired_of};
ghost use Rattle.walk.specs.Clauses.{PairedBy};
ghost use Rattle.walk_pair.specs.Pairing.{first_of};

use pair::ConvexSum;
use walk::{Begun, Paired};
use walk_begin::begin_checked;
use walk_read::length_broken;

// The first of two walks' faults, 8 before 20: the lesser.
fn first_of(f: u32, g: u32) -> u32
    ensures { result ≡ first_of f g }
{
    f.min(g)
}

// Both walks begun, on contours of sound length and range. Refuses with 8, 20.
fn pair_checked(left: &[i32], right: &[i32], reflected: bool) -> Paired
    requires { (length_broken left.now ≡ false) × (length_broken right.now ≡ false) × (off_range left.now ≡ false) × (off_range right.now ≡ false) }
    ensures { result ≡ paired_of reflected left.now right.now }
{
    let first = begin_checked(left, false);
    let second = begin_checked(right, reflected);
    match (first, second) {
        (Begun::At(a), Begun::At(b)) => Paired::At(ConvexSum { a, b }),
        (Begun::At(_), Begun::Refused(g)) => Paired::Refused(g),
        (Begun::Refused(f), Begun::At(_)) => Paired::Refused(f),
        (Begun::Refused(f), Begun::Refused(g)) => Paired::Refused(first_of(f, g)),
    }
}

// Both walks begun, the second reflected or not.
fn begin_pair(left: &[i32], right: &[i32], reflected: bool) -> Paired
    ensures { PairedBy reflected left.now right.now result }
{
    if length_broken(left) || length_broken(right) {
        return Paired::Refused(integers::fault::RULES);
    }
    if corners::off_range(left) || corners::off_range(right) {
        return Paired::Refused(integers::fault::RANGE);
    }
    pair_checked(left, right, reflected)
}

// A sum begun.
pub fn new(left: &[i32], right: &[i32]) -> Paired
    ensures { PairedBy false left.now right.now result }
{
    begin_pair(left, right, false)
}

// A difference begun.
pub fn difference(left: &[i32], right: &[i32]) -> Paired
    ensures { PairedBy true left.now right.now result }
{
    begin_pair(left, right, true)
}
