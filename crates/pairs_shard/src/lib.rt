// A shard of a pair job cut out of the job's bytes: `cut` takes any bytes and two part numbers, and
// writes the job of the left parts from the first number up to, and without, the second, with all
// right parts, the operation and all bounds. It refuses by number what is no job by its shape, or
// whose left table is against the rules. What it answers and leaves in the lent bytes are equations
// with specs/Shard.antt; that the shards put together are the whole is specs/Whole.antt. Leans on
// pairs_job, pairs_rules, table_words and text.
#![tactic(auto)]

ghost use Rattle.std.specs.Prelude.{◌≡◌, ◌++◌, map, ◌+◌, ◌*◌, ◌-◌, ◌≤◌, length, take, drop};
ghost use Rattle.std.proofs.Math.Seq.{slice};
ghost use Rattle.faults.specs.Told.{told};
ghost use Rattle.io.specs.Counts.{IsPrefixLen};
ghost use Rattle.table.specs.Stored.{words_of, word_bytes};
ghost use Rattle.table_words.specs.Place.{put_words};
ghost use Rattle.text.specs.Put.{PutText};
ghost use Rattle.pairs_job.specs.Job.{table_words};
ghost use Rattle.pairs_shard.specs.Shard.{corner_place, shard_counts, shard_fault, cut_of, bytes_cut, Cuts, AtLeast};

use faults::Fault;
use pairs_job::{LEFT, LONGEST};
use table_words::{put_word, word_at};

// What `cut` answers: the fault number, 0 for none, and how many bytes were written, 0 where it
// refused.
#[derive(Clone, Copy)]
pub struct Shard {
    pub fault: u32,
    pub size: usize,
}

// The fault of cutting a job.
fn shard_fault(bytes: &[u8]) -> Result<(), Fault>
    ensures { told result ≡ shard_fault bytes.now }
{
    pairs_job::shape_fault(bytes)?;
    if pairs_rules::table_broken(bytes, LEFT) {
        return Err(Fault::Rules);
    }
    Ok(())
}

// Writes `count` words from word `from` on, each less `base`, at word `at` of the lent bytes on.
fn put_less(bytes: &[u8], from: usize, count: usize, base: u32, out: &mut [u8], at: usize)
    requires { (4 * (from + count) ≤ length bytes.now) × (4 * (at + count) ≤ length out.old) × AtLeast base from count bytes.now }
    ensures { out.new ≡ put_words at (map (λ s. s - base) (take count (drop from (words_of bytes.now)))) out.old }
{
    for i in 0..count {
        put_word(out, at + i, word_at(bytes, from + i) - base);
    }
}

// Writes the operation, the left bounds, the counts and the starts of the left parts first up to
// past; answers how many bytes they are.
fn put_counts(bytes: &[u8], first: usize, past: usize, out: &mut [u8]) -> usize
    requires { Cuts first past bytes.now × (147516 ≤ length out.old) }
    ensures { let counts = take 20 bytes.now ++ word_bytes (shard_counts first past bytes.now) in
        PutText counts 0 out.old out.new result }
{
    let base = word_at(bytes, LEFT + 2 + first);
    let end = word_at(bytes, LEFT + 2 + past);
    text::put_bytes(&bytes[..20], out, 0);
    put_word(out, LEFT, (past - first) as u32);
    put_word(out, LEFT + 1, end - base);
    put_less(
        bytes,
        LEFT + 2 + first,
        past - first + 1,
        base,
        out,
        LEFT + 2,
    );
    4 * (LEFT + 3 + (past - first))
}

// Writes the corners of the left parts first up to past, and then the right bounds and the right
// table; answers the place after them.
fn put_rest(bytes: &[u8], first: usize, past: usize, out: &mut [u8], at: usize) -> usize
    requires { Cuts first past bytes.now × (147516 ≤ length out.old) × (at ≤ 8224) }
    ensures { let job = bytes.now in
        let corners = slice (4 * corner_place job first) (4 * corner_place job past) job in
        let right = drop (4 * (5 + table_words job 5)) job in
        PutText (corners ++ right) at out.old out.new result }
{
    let parts = word_at(bytes, LEFT) as usize;
    let count = word_at(bytes, LEFT + 1) as usize;
    let corners = LEFT + 3 + parts;
    let base = corners + corners::WIDTH * (word_at(bytes, LEFT + 2 + first) as usize);
    let end = corners + corners::WIDTH * (word_at(bytes, LEFT + 2 + past) as usize);
    let after = text::put_bytes(&bytes[4 * base..4 * end], out, at);
    text::put_bytes(&bytes[4 * (corners + corners::WIDTH * count)..], out, after)
}

// Writes the shard of the left parts `from` up to, and without, `to` on the front of the lent
// bytes. Refuses with 13, 7, in this order, before the first store. The last clause says again, in
// io's words, that they stand within the lent ones, for a caller that lends them on.
pub fn cut(bytes: &[u8], from: usize, to: usize, out: &mut [u8; LONGEST]) -> Shard
    ensures told { result ≡ cut_of from to bytes.now }
    ensures bytes { out.new ≡ bytes_cut from to bytes.now out.old }
    ensures counted { IsPrefixLen result.size out.new }
{
    if let Err(fault) = shard_fault(bytes) {
        return Shard {
            fault: fault.number(),
            size: 0,
        };
    }
    let past = to.min(word_at(bytes, LEFT) as usize);
    let first = from.min(past);
    let at = put_counts(bytes, first, past, out);
    let size = put_rest(bytes, first, past, out, at);
    Shard { fault: 0, size }
}
