// A part table read from its stored form (document 01: "part count, corner count, starts, corners,
// each 32 bits, little-endian"): `read_table`, from bytes into lent starts and corners. It takes
// any bytes; the answer and each lent buffer as it returns equal the definitions of
// specs/Read.antt: a refusal changes nothing, and on success places past the answer keep what they
// held. table_write is the way back. Leans on table (the rules), table_words (words of bytes).
#![tactic(auto)]

ghost use Rattle.std.specs.Prelude.{◌≡◌, false, map, length, drop};
ghost use Rattle.corners.specs.Corners.{off_range};
ghost use Rattle.table.specs.Table.{starts_broken, max_contour};
ghost use Rattle.table.specs.Stored.{words_of, word_at, signed, stored_starts, length_broken, stored_broken, read_fault};
ghost use Rattle.faults.specs.Told.{told};
ghost use Rattle.table_read.specs.Read.{counts_read, starts_read, corners_read};

use faults::Fault;
use table::Counts;
use table_words::{HEADER, WORD, word_at};

// Whether the bytes are not as many as their two counts say. The counts are below 2^32, so their
// size in bytes is below 2^36.
fn length_broken(bytes: &[u8]) -> bool
    ensures { result ≡ length_broken bytes.now }
{
    if bytes.len() < HEADER {
        return true;
    }
    let parts = word_at(bytes, 0) as usize;
    let count = word_at(bytes, 1) as usize;
    bytes.len() != HEADER + WORD * (parts + 1) + corners::WIDTH * WORD * count
}

// Whether the starts in the bytes break a rule, beside the corner count that the bytes tell.
fn stored_starts_broken(bytes: &[u8], parts: usize, count: usize) -> bool
    requires { (length_broken bytes.now ≡ false) × (parts ≡ word_at bytes.now 0) }
    ensures { result ≡ starts_broken max_contour count (stored_starts bytes.now) }
{
    if word_at(bytes, 2) != 0 {
        return true;
    }
    let mut last: usize = 0;
    for i in 1..parts + 1 {
        let next = word_at(bytes, i + 2) as usize;
        if table::step_broken(table::MAX_CONTOUR, last, next) {
            return true;
        }
        last = next;
    }
    last != count
}

// Whether the bytes are no table by length, rules or limits (fault 7).
fn stored_broken(bytes: &[u8]) -> bool
    ensures { result ≡ stored_broken bytes.now }
{
    if length_broken(bytes) {
        return true;
    }
    let parts = word_at(bytes, 0) as usize;
    let count = word_at(bytes, 1) as usize;
    if parts > table::MAX_PARTS || count > table::MAX_CORNERS {
        return true;
    }
    stored_starts_broken(bytes, parts, count)
}

// Whether some number of the bytes, from word `from` on, is not strictly between -2^30 and 2^30
// (fault 2).
fn stored_off_range(bytes: &[u8], from: usize) -> bool
    ensures { result ≡ off_range (map signed (drop from (words_of bytes.now))) }
{
    for i in from..bytes.len() / WORD {
        let z = table_words::signed_word(word_at(bytes, i));
        if !plane::in_range(z) {
            return true;
        }
    }
    false
}

// The fault of reading the bytes into so many places for starts and into lent corners.
fn read_fault(bytes: &[u8], starts: usize, corners: &[i32]) -> Result<(), Fault>
    ensures { told result ≡ read_fault bytes.now starts (length corners.now) }
{
    if stored_broken(bytes) {
        return Err(Fault::Rules);
    }
    let parts = word_at(bytes, 0) as usize;
    let count = word_at(bytes, 1) as usize;
    if stored_off_range(bytes, parts + 3) {
        return Err(Fault::Range);
    }
    if starts < parts + 1 {
        return Err(Fault::StartRoom);
    }
    if corners::corner_count(corners) < count {
        return Err(Fault::CornerRoom);
    }
    Ok(())
}

// Reads a stored table into the lent starts and corners. Refuses with 7, 2, 22, 21, in this order,
// before the first store.
pub fn read_table(bytes: &[u8], starts: &mut [u32], corners: &mut [i32]) -> Counts
    ensures told { result ≡ counts_read bytes.now starts.old corners.old }
    ensures starts { starts.new ≡ starts_read bytes.now starts.old corners.old }
    ensures corners { corners.new ≡ corners_read bytes.now starts.old corners.old }
{
    if let Err(fault) = read_fault(bytes, starts.len(), corners) {
        return Counts {
            fault: fault.number(),
            parts: 0,
            corners: 0,
        };
    }
    let parts = word_at(bytes, 0);
    let count = word_at(bytes, 1);
    let first = parts as usize;
    table_words::read_words(bytes, 2, first + 1, starts);
    table_words::read_numbers(bytes, first + 3, corners::WIDTH * (count as usize), corners);
    Counts {
        fault: 0,
        parts,
        corners: count,
    }
}
