// The area listing of a mesh file (document 01, "The file and its listing"): `listing` takes the
// bytes of a file, any bytes, and lent text that holds any answer. What it leaves on the text's
// front is `areas_of` of the bytes (listing/specs/Listing.antt), places past it are kept, and the
// answer is how many there are. That nothing longer can come is listing_fits' law, and that more
// input changes nothing is specs/MoreInput.antt. Leans on file_parts, listing_lines and text.
#![tactic(auto)]

ghost use Rattle.std.specs.Prelude.{◌≡◌, length};
ghost use Rattle.io.specs.Counts.{IsPrefixLen};
ghost use Rattle.integers.specs.Lists.{overlay};
ghost use Rattle.listing.specs.Listing.{areas_of};

use file_parts::{NUMBERS, STARTS};

// The longest good file and one byte more, so that a longer one is seen to be too long.
pub const INPUT: usize = mesh_file::HEADER + mesh::ROW_BYTES * mesh::MAX_TRIANGLES + 1;

// As many bytes as the longest listing has: 50 of the first line, 36 of each part's line beside its
// corners, 26 of each corner, of which a triangle has at most six.
pub const LISTING: usize = 50 + 36 * table::MAX_PARTS + 26 * (6 * mesh::MAX_TRIANGLES);

// The listing of a mesh file, or its refusal, on the front of the lent text; answers how many bytes
// it has. The last clause says again, in io's words, that they stand within the text, for a caller
// that lends them on.
pub fn listing(bytes: &[u8], out: &mut [u8; LISTING]) -> usize
    ensures length { result ≡ length (areas_of bytes.now) }
    ensures text { out.new ≡ overlay (areas_of bytes.now) out.old }
    ensures counted { IsPrefixLen result out.new }
{
    let mut starts = [0u32; STARTS];
    let mut corners = [0i32; NUMBERS];
    let told = file_parts::split_file(bytes, &mut starts, &mut corners);
    if told.fault != 0 {
        return text::put_refusal(told.fault, out, 0);
    }
    let parts = told.parts as usize;
    let count = told.corners as usize;
    listing_lines::put_listing(
        &starts[..parts + 1],
        file_parts::front(&corners, count),
        out,
    )
}
