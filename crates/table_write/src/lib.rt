// A part table written in its stored form (document 01: "part count, corner count, starts, corners,
// each 32 bits, little-endian"): `write_table`, from a table into lent bytes. It takes any starts
// and corners; the answer and the lent bytes as it returns equal the definitions of
// specs/Written.antt: a refusal changes nothing, and on success bytes past the answer keep what
// they held. table_read is the way back. Leans on table (the rules), table_words (words of bytes).
#![tactic(auto)]

ghost use Rattle.std.specs.Prelude.{◌≡◌, map, ◌+◌, ◌*◌, ◌≤◌, length};
ghost use Rattle.integers.specs.Word.{unsigned};
ghost use Rattle.faults.specs.Told.{told};
ghost use Rattle.table.specs.Stored.{write_fault};
ghost use Rattle.table_words.specs.Place.{put_words};
ghost use Rattle.table_write.specs.Written.{answer_written, bytes_written};

use faults::Fault;
use table_words::{HEADER, WORD, put_word};

// What `write_table` answers: the fault number, 0 for none, and how many bytes were written, 0
// where it refused.
#[derive(Clone, Copy)]
pub struct Stored {
    pub fault: u32,
    pub length: usize,
}

// The fault of writing the table into so many bytes.
fn write_fault(starts: &[u32], corners: &[i32], room: usize) -> Result<(), Fault>
    ensures { told result ≡ write_fault starts.now corners.now room }
{
    if table::rules_broken(starts, corners) {
        return Err(Fault::Rules);
    }
    if corners::off_range(corners) {
        return Err(Fault::Range);
    }
    if room < HEADER + WORD * starts.len() + WORD * corners.len() {
        return Err(Fault::CornerRoom);
    }
    Ok(())
}

// Writes the words from word `from` on.
pub fn write_words(words: &[u32], from: usize, bytes: &mut [u8])
    requires { 4 * (from + length words.now) ≤ length bytes.old }
    ensures { bytes.new ≡ put_words from words.now bytes.old }
{
    for (i, word) in words.iter().enumerate() {
        put_word(bytes, from + i, *word);
    }
}

// Writes the corners' numbers as words from word `from` on.
pub fn write_corners(corners: &[i32], from: usize, bytes: &mut [u8])
    requires { 4 * (from + length corners.now) ≤ length bytes.old }
    ensures { bytes.new ≡ put_words from (map unsigned corners.now) bytes.old }
{
    for (i, z) in corners.iter().enumerate() {
        put_word(bytes, from + i, integers::unsigned(*z));
    }
}

// Writes a table on the front of the lent bytes. Refuses with 7, 2, 21, in this order, before the
// first store.
pub fn write_table(starts: &[u32], corners: &[i32], bytes: &mut [u8]) -> Stored
    ensures told { result ≡ answer_written starts.now corners.now bytes.old }
    ensures bytes { bytes.new ≡ bytes_written starts.now corners.now bytes.old }
{
    if let Err(fault) = write_fault(starts, corners, bytes.len()) {
        return Stored {
            fault: fault.number(),
            length: 0,
        };
    }
    let count = corners::corner_count(corners);
    put_word(bytes, 0, (starts.len() - 1) as u32);
    put_word(bytes, 1, count as u32);
    write_words(starts, 2, bytes);
    write_corners(corners, starts.len() + 2, bytes);
    Stored {
        fault: 0,
        length: HEADER + WORD * starts.len() + WORD * corners.len(),
    }
}
