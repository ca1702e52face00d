// The split parts of a mesh file as a stored table (document 01: "Stored, a table is part count,
// corner count, starts, corners, each 32 bits, little-endian"): `stored_parts` takes the bytes of a
// file, any bytes, and lent bytes that hold the longest answer. What it leaves on their front is
// `parts_bytes` of specs/Parts.antt, bytes past it are kept, and a refusal writes nothing. That
// reading it gives the parts back is specs/ReadBack.antt. Leans on file_parts and table_write.
#![tactic(auto)]

ghost use Rattle.std.specs.Prelude.{◌≡◌};
ghost use Rattle.io.specs.Counts.{IsPrefixLen};
ghost use Rattle.table.specs.Table.{written};
ghost use Rattle.listing.specs.File.{file_fault};
ghost use Rattle.parts_file.specs.Parts.{parts_bytes, parts_answer};

use file_parts::{NUMBERS, STARTS};
use table_write::Stored;

// As many bytes as the longest answer has: two counts, the starts and the corners' numbers, four
// bytes each.
pub const PARTS: usize = 8 + 4 * STARTS + 4 * NUMBERS;

// The stored table of a file's split parts on the front of the lent bytes, with how many there are;
// or the file's fault (13, 1, 2, 3, 4, 5, 6 or 11). The last clause says again, in io's words, that
// the answer stands within the bytes, for a caller that lends them on.
pub fn stored_parts(bytes: &[u8], out: &mut [u8; PARTS]) -> Stored
    ensures told { result ≡ parts_answer bytes.now }
    ensures bytes { out.new ≡ written (file_fault bytes.now) (parts_bytes bytes.now) out.old }
    ensures counted { IsPrefixLen result.length out.new }
{
    let mut starts = [0u32; STARTS];
    let mut corners = [0i32; NUMBERS];
    let told = file_parts::split_file(bytes, &mut starts, &mut corners);
    if told.fault != 0 {
        return Stored {
            fault: told.fault,
            length: 0,
        };
    }
    let parts = told.parts as usize;
    let count = told.corners as usize;
    table_write::write_table(
        &starts[..parts + 1],
        file_parts::front(&corners, count),
        out,
    )
}
