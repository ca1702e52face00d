// The rules of a table that stands in the bytes of a pair job, or of two stored tables, from word k
// on: `table_broken` tells whether it breaks them (fault 7), of a table that lies within the bytes
// and whose counts are within the limits. It equals table's `table_broken` of pairs_job's
// `starts_at` and `corners_at`. Leans on pairs_job, table_words and table.
#![tactic(auto)]

ghost use Rattle.std.specs.Prelude.{◌≡◌, false, ◌+◌, ◌*◌, ◌≤◌, length};
ghost use Rattle.table.specs.Table.{table_broken};
ghost use Rattle.pairs_job.specs.Job.{starts_at, corners_at, table_words, counts_broken};

use table_words::word_at;

// Whether the table at word k breaks its rules. Its corners count, and are not read.
pub fn table_broken(bytes: &[u8], k: usize) -> bool
    requires { (4 * (k + table_words bytes.now k) ≤ length bytes.now) × (counts_broken bytes.now k ≡ false) }
    ensures { result ≡ table_broken (starts_at bytes.now k) (corners_at bytes.now k) }
{
    let parts = word_at(bytes, k) as usize;
    let count = word_at(bytes, k + 1) as usize;
    let mut starts = [0u32; table::MAX_PARTS + 1];
    table_words::read_words(bytes, k + 2, parts + 1, &mut starts);
    table::starts_broken(table::MAX_CONTOUR, count, &starts[..parts + 1])
}
