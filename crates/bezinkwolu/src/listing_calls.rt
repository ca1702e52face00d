// What boundary_listing promises, to C.
ghost use Rattle.std.specs.Prelude.{◌≡◌, length};
ghost use Rattle.integers.specs.Lists.{overlay};
ghost use Rattle.listing.specs.Listing.{areas_of};

use area_listing::LISTING;

// area_listing::listing.
#[unsafe(no_mangle)]
pub extern "C" fn bezinkwolu_listing(bytes: &[u8], out: &mut [u8; LISTING]) -> usize
    ensures length { result ≡ length (areas_of bytes.now) }
    ensures text { out.new ≡ overlay (areas_of bytes.now) out.old }
{
    boundary_listing::bezinkwolu_listing(bytes, out)
}
