// The area listing, exported to C for the package (./package) and the runs beside the Rust
// (oracle/beside): area_listing's `listing`, with the same contract and no `requires`. Leans on
// area_listing.
#![tactic(auto)]

ghost use Rattle.std.specs.Prelude.{◌≡◌, length};
ghost use Rattle.integers.specs.Lists.{overlay};
ghost use Rattle.listing.specs.Listing.{areas_of};

use area_listing::LISTING;

// area_listing::listing.
#[unsafe(no_mangle)]
pub extern "C" fn bezinkwolu_listing(bytes: &[u8], out: &mut [u8; LISTING]) -> usize
    ensures length { result ≡ length (areas_of bytes.now) }
    ensures text { out.new ≡ overlay (areas_of bytes.now) out.old }
{
    area_listing::listing(bytes, out)
}
