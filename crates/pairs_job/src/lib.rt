// A pair job's bytes, which the pairs program reads: an operation, and for either operand four
// bounds and a stored table. `shape_fault` tells what is wrong with their shape (13, and 7 for
// their length and counts); of a job without such a fault `bounds_at` and `read_operand` read an
// operand, whose table begins at word LEFT or at word `right_place`. How long a table is by its
// counts (`table_size`), and whether these are past the limits (`counts_broken`), serves tables_job
// too. What they answer are equations with specs/Job.antt. Leans on table_words and table.
#![tactic(auto)]

ghost use Rattle.std.specs.Prelude.{◌≡◌, false, ◌+◌, ◌*◌, ◌<◌, ◌≤◌, length};
ghost use Rattle.integers.specs.Lists.{overlay};
ghost use Rattle.faults.specs.Told.{told};
ghost use Rattle.pairs_job.specs.Job.{bounds_at, starts_at, corners_at, table_words, counts_broken, right_place, job_length_broken, shape_fault, TableIn};

use faults::Fault;
use table::IntRect;
use table_words::{WORD, word_at};

// The words that the left bounds and the left table begin at.
pub const LEFT_BOUNDS: usize = 1;

pub const LEFT: usize = 5;

// A sum is operation 0, a difference 1.
pub const DIFFERENCE: u32 = 1;

// The bytes of the longest good job: an operation, and of either operand four bounds, two counts,
// the starts and the corners.
pub const LONGEST: usize = WORD
    * (1 + 2 * (4 + 2 + (table::MAX_PARTS + 1) + corners::WIDTH * table::MAX_CORNERS));

// How many words the table at word k has, as its counts say.
pub fn table_size(bytes: &[u8], k: usize) -> usize
    requires { 4 * (k + 2) ≤ length bytes.now }
    ensures size { result ≡ table_words bytes.now k }
    ensures small { result ≤ 12884901888 }
{
    let parts = word_at(bytes, k) as usize;
    let count = word_at(bytes, k + 1) as usize;
    3 + parts + corners::WIDTH * count
}

// The word that the right table begins at.
pub fn right_place(bytes: &[u8]) -> usize
    requires { 28 ≤ length bytes.now }
    ensures place { result ≡ right_place bytes.now }
    ensures small { result ≤ 12884901897 }
{
    LEFT + table_size(bytes, LEFT) + 4
}

// Whether the bytes are not as many as the counts of both tables say, or end before a count.
fn length_broken(bytes: &[u8]) -> bool
    ensures { result ≡ job_length_broken bytes.now }
{
    if bytes.len() < 28 {
        return true;
    }
    let right = right_place(bytes);
    bytes.len() < WORD * (right + 2) || bytes.len() != WORD * (right + table_size(bytes, right))
}

// Whether a count of the table at word k is past its limit.
pub fn counts_broken(bytes: &[u8], k: usize) -> bool
    requires { 4 * (k + 2) ≤ length bytes.now }
    ensures { result ≡ counts_broken bytes.now k }
{
    word_at(bytes, k) as usize > table::MAX_PARTS
        || word_at(bytes, k + 1) as usize > table::MAX_CORNERS
}

// The fault of a job's shape.
pub fn shape_fault(bytes: &[u8]) -> Result<(), Fault>
    ensures { told result ≡ shape_fault bytes.now }
{
    if bytes.len() < WORD {
        return Err(Fault::File);
    }
    if word_at(bytes, 0) > DIFFERENCE {
        return Err(Fault::File);
    }
    if length_broken(bytes) {
        return Err(Fault::Rules);
    }
    if counts_broken(bytes, LEFT) {
        return Err(Fault::Rules);
    }
    if counts_broken(bytes, right_place(bytes)) {
        return Err(Fault::Rules);
    }
    Ok(())
}

// The bounds from word k on.
pub fn bounds_at(bytes: &[u8], k: usize) -> IntRect
    requires { 4 * (k + 4) ≤ length bytes.now }
    ensures { result ≡ bounds_at bytes.now k }
{
    IntRect {
        min_x: table_words::signed_word(word_at(bytes, k)),
        max_x: table_words::signed_word(word_at(bytes, k + 1)),
        min_y: table_words::signed_word(word_at(bytes, k + 2)),
        max_y: table_words::signed_word(word_at(bytes, k + 3)),
    }
}

// Copies the starts and the corners of the table at word k on the front of the lent ones. Past them
// they keep what they held.
pub fn read_operand(bytes: &[u8], k: usize, starts: &mut [u32], corners: &mut [i32])
    requires { TableIn bytes.now k starts.old corners.old }
    ensures starts { starts.new ≡ overlay (starts_at bytes.now k) starts.old }
    ensures corners { corners.new ≡ overlay (corners_at bytes.now k) corners.old }
{
    let parts = word_at(bytes, k) as usize;
    let count = word_at(bytes, k + 1) as usize;
    table_words::read_words(bytes, k + 2, parts + 1, starts);
    table_words::read_numbers(bytes, k + 3 + parts, corners::WIDTH * count, corners);
}
