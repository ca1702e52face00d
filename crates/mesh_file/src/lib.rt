// The mesh file read (document 01, "The file and its listing"): whether its header is sound, and
// its records as rows of nine numbers, the form in which a mesh is lent. Each function equals its
// definition in listing's specs/File.antt. `header_fault` takes any bytes; the others read a header
// that is there, and records that are. Leans on table_words (words of bytes), mesh (rows) and
// listing (the file).
#![tactic(auto)]

ghost use Rattle.std.specs.Prelude.{◌≡◌, ◌+◌, ◌*◌, ◌≤◌, length, drop};
ghost use Rattle.integers.specs.Word.{unsigned};
ghost use Rattle.integers.specs.Faults.{first_fault};
ghost use Rattle.mesh.specs.Rows.{row_width, row_bytes, row_triangle, rows_mesh};
ghost use Rattle.table.specs.Stored.{words_of, word_at, signed};
ghost use Rattle.listing.specs.File.{triangle_count, corner_limit, split_number, strategy_of, record_of, records_of, header_broken, header_kinds};

use mesh::{ROW, ROW_BYTES, Row};
use split::ConvexSplitStrategy;
use table_words::word_at;

// The bytes of the header, which is also where the records begin; a record has the bytes of a row.
pub const HEADER: usize = 20;

// The last split's number: "0 ear, 1 fan, 2 centroid" (document 01).
const LAST_SPLIT: u32 = 2;

// How many triangles the header tells.
pub fn triangle_count(bytes: &[u8]) -> u32
    requires { 20 ≤ length bytes.now }
    ensures { result ≡ triangle_count bytes.now }
{
    word_at(bytes, 1)
}

// The corner limit that the header tells.
pub fn corner_limit(bytes: &[u8]) -> u32
    requires { 20 ≤ length bytes.now }
    ensures { result ≡ corner_limit bytes.now }
{
    word_at(bytes, 3)
}

// The split that the header tells; a number past the last is taken for the last.
pub fn strategy(bytes: &[u8]) -> ConvexSplitStrategy
    requires { 20 ≤ length bytes.now }
    ensures { result ≡ strategy_of (split_number bytes.now) }
{
    listing::strategy(word_at(bytes, 4))
}

// Whether the offset, the split or the total is wrong, or the total unlike the bytes there are. A
// count below 2^32 is below 2^38 in bytes.
fn header_broken(bytes: &[u8]) -> bool
    requires { 20 ≤ length bytes.now }
    ensures { result ≡ header_broken bytes.now }
{
    let total = word_at(bytes, 0) as usize;
    word_at(bytes, 2) as usize != HEADER
        || word_at(bytes, 4) > LAST_SPLIT
        || total != HEADER + ROW_BYTES * (triangle_count(bytes) as usize)
        || total != bytes.len()
}

// The fault of a file before its mesh is judged: 13 for less than a header, 1, then 13; 0 for none.
pub fn header_fault(bytes: &[u8]) -> u32
    ensures { result ≡ first_fault (header_kinds bytes.now) }
{
    if bytes.len() < HEADER {
        return integers::fault::FILE;
    }
    if triangle_count(bytes) as usize > mesh::MAX_TRIANGLES {
        return integers::fault::TRIANGLES;
    }
    if header_broken(bytes) {
        return integers::fault::FILE;
    }
    0
}

// Word k as a number with a sign; its 32 bits are the word's.
fn number_at(bytes: &[u8], k: usize) -> i32
    requires { 4 * k + 4 ≤ length bytes.now }
    ensures number { result ≡ signed (word_at bytes.now k) }
    ensures word { unsigned result ≡ word_at bytes.now k }
{
    table_words::signed_word(word_at(bytes, k))
}

// Record k as a row, of bytes that begin with record 0.
fn row_at(bytes: &[u8], k: usize) -> Row
    requires { row_bytes * k + row_bytes ≤ length bytes.now }
    ensures { row_triangle result ≡ record_of (drop (row_width * k) (words_of bytes.now)) }
{
    let at = ROW * k;
    [
        number_at(bytes, at),
        number_at(bytes, at + 1),
        number_at(bytes, at + 2),
        number_at(bytes, at + 3),
        number_at(bytes, at + 4),
        number_at(bytes, at + 5),
        number_at(bytes, at + 6),
        number_at(bytes, at + 7),
        number_at(bytes, at + 8),
    ]
}

// The first records as rows, as many as have room, of bytes that begin with record 0.
pub fn read_rows(bytes: &[u8], rows: &mut [Row])
    requires { row_bytes * length rows.old ≤ length bytes.now }
    ensures { rows_mesh rows.new ≡ records_of (length rows.old) (words_of bytes.now) }
{
    for (k, row) in rows.iter_mut().enumerate() {
        *row = row_at(bytes, k);
    }
}
