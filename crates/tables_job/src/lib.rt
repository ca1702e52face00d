// A pair job made of two stored tables: `make_job` takes any bytes, an operation and two stored
// tables, and writes the pair job of them, with as bounds the least and greatest x and y of each
// table's corners. It refuses by number what is no operation with two good tables. What it answers
// and leaves in the lent bytes are equations with specs/Tables.antt. Leans on pairs_job,
// pairs_rules, table_words and text.
#![tactic(auto)]

ghost use Rattle.std.specs.Prelude.{◌≡◌, ◌+◌, ◌*◌, ◌<◌, ◌≤◌, length};
ghost use Rattle.faults.specs.Told.{told};
ghost use Rattle.io.specs.Counts.{IsPrefixLen};
ghost use Rattle.table_words.specs.Place.{put_words};
ghost use Rattle.text.specs.Put.{PutText};
ghost use Rattle.pairs_job.specs.Job.{table_words};
ghost use Rattle.tables_job.specs.Tables.{picked_of, extreme_of, bounds_words, operand_bytes, broken_at, tables_length_broken, tables_fault, made_of, bytes_made, Writable};

use faults::Fault;
use pairs_job::{LONGEST, table_size};
use table_words::{WORD, signed_word, word_at};

// The word that the left table begins at.
const LEFT: usize = 1;

// What `make_job` answers: the fault number, 0 for none, and how many bytes were written, 0 where
// it refused.
#[derive(Clone, Copy)]
pub struct Made {
    pub fault: u32,
    pub size: usize,
}

// Of two words, read with their signs, the greater one, or the lesser one.
fn picked(greatest: bool, a: u32, b: u32) -> u32
    ensures { result ≡ picked_of greatest a b }
{
    let x = signed_word(a);
    let y = signed_word(b);
    let other = if greatest { x < y } else { y < x };
    if other { b } else { a }
}

// The greatest, or the least, of `count` words, every other one from word `from` on; 0 of none.
fn extreme(bytes: &[u8], greatest: bool, from: usize, count: usize) -> u32
    requires { 4 * (from + 2 * count) ≤ length bytes.now + 4 }
    ensures { result ≡ extreme_of greatest bytes.now from count }
{
    if count == 0 {
        return 0;
    }
    let mut word = word_at(bytes, from);
    for k in 1..count {
        word = picked(greatest, word, word_at(bytes, from + corners::WIDTH * k));
    }
    word
}

// Writes the bounds of `count` corners that stand from word `from` on, at word `at` of the lent
// bytes.
fn put_bounds(bytes: &[u8], from: usize, count: usize, out: &mut [u8], at: usize)
    requires { (4 * (from + 2 * count) ≤ length bytes.now) × (4 * (at + 4) ≤ length out.old) }
    ensures { out.new ≡ put_words at (bounds_words bytes.now from count) out.old }
{
    let words = [
        extreme(bytes, false, from, count),
        extreme(bytes, true, from, count),
        extreme(bytes, false, from + 1, count),
        extreme(bytes, true, from + 1, count),
    ];
    table_write::write_words(&words, at, out);
}

// Writes the bounds and the table at word k as an operand, at word `at` of the lent bytes on;
// answers the place after it.
fn put_operand(bytes: &[u8], k: usize, out: &mut [u8], at: usize) -> usize
    requires { Writable bytes.now k out.old at }
    ensures { PutText (operand_bytes bytes.now k) (4 * at) out.old out.new result }
{
    let parts = word_at(bytes, k) as usize;
    let count = word_at(bytes, k + 1) as usize;
    let corners = k + 3 + parts;
    put_bounds(bytes, corners, count, out, at);
    text::put_bytes(
        &bytes[WORD * k..WORD * (corners + corners::WIDTH * count)],
        out,
        WORD * (at + 4),
    )
}

// Whether the table at word k has counts past the limits or is against its rules.
fn broken_at(bytes: &[u8], k: usize) -> bool
    requires { 4 * (k + table_words bytes.now k) ≤ length bytes.now }
    ensures { result ≡ broken_at bytes.now k }
{
    pairs_job::counts_broken(bytes, k) || pairs_rules::table_broken(bytes, k)
}

// Whether the bytes are not as many as the counts of both tables say, or end before a count.
fn length_broken(bytes: &[u8]) -> bool
    ensures { result ≡ tables_length_broken bytes.now }
{
    if bytes.len() < WORD * (LEFT + 2) {
        return true;
    }
    let right = LEFT + table_size(bytes, LEFT);
    bytes.len() < WORD * (right + 2) || bytes.len() != WORD * (right + table_size(bytes, right))
}

// The fault of an operation and two stored tables.
fn tables_fault(bytes: &[u8]) -> Result<(), Fault>
    ensures { told result ≡ tables_fault bytes.now }
{
    if bytes.len() < WORD {
        return Err(Fault::File);
    }
    if word_at(bytes, 0) > pairs_job::DIFFERENCE {
        return Err(Fault::File);
    }
    if length_broken(bytes) {
        return Err(Fault::Rules);
    }
    if broken_at(bytes, LEFT) {
        return Err(Fault::Rules);
    }
    if broken_at(bytes, LEFT + table_size(bytes, LEFT)) {
        return Err(Fault::Rules);
    }
    Ok(())
}

// Writes the pair job of two stored tables on the front of the lent bytes. Refuses with 13, 7, in
// this order, before the first store. The last clause says again, in io's words, that the bytes
// stand within the lent ones, for a caller that lends them on.
pub fn make_job(bytes: &[u8], out: &mut [u8; LONGEST]) -> Made
    ensures told { result ≡ made_of bytes.now }
    ensures bytes { out.new ≡ bytes_made bytes.now out.old }
    ensures counted { IsPrefixLen result.size out.new }
{
    if let Err(fault) = tables_fault(bytes) {
        return Made {
            fault: fault.number(),
            size: 0,
        };
    }
    let right = LEFT + table_size(bytes, LEFT);
    text::put_bytes(&bytes[..WORD], out, 0);
    put_operand(bytes, LEFT, out, LEFT);
    let size = put_operand(bytes, right, out, right + 4);
    Made { fault: 0, size }
}
