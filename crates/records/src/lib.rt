// Stored samples, read: records of standard input, one after another, each as long as its first
// word says, and the words, lists and rows that one holds, as the programs that replay samples take
// them. What the input holds is its own; a record that is not whole is none. Of any bytes each
// reader answers what specs/Record.antt says, so that a program which reads by them needs no proof
// but for its loop. Leans on mesh, table_words and io.
#![tactic(auto)]

ghost use Rattle.std.specs.Prelude.{◌≡◌, ◌≤◌, ◌<◌, min, length};
ghost use Rattle.table.specs.Stored.{word_at};
ghost use Rattle.records.specs.Record.{Counted, Listed, Readable, words_in, numbers_in, row_in, rows_in};

use table_words::WORD;

// The bytes of a record's head, which every record has.
pub const HEAD: usize = 32;

// The numbers of a triangle's row, as a count of words.
const NUMBERS: u32 = mesh::ROW as u32;

// A proved loop has to end: so many records that no input has more.
pub const MOST: u64 = 1099511627776;

// Reads the next record onto the front of buf and answers how many bytes it has: 0 at the input's
// end, where the head says what cannot be, and where the input ends within the record.
pub fn read_record(buf: &mut [u8]) -> usize
    requires { 32 ≤ length buf.old }
    ensures { Counted result buf.new }
{
    if io::read_full(0, &mut buf[..HEAD]) < HEAD {
        return 0;
    }
    let size = table_words::word_at(buf, 0) as usize;
    if size < HEAD || size > buf.len() {
        return 0;
    }
    if io::read_full(0, &mut buf[HEAD..size]) < size - HEAD {
        return 0;
    }
    size
}

// Word k, 0 past the end.
pub fn word(bytes: &[u8], k: usize) -> u32
    ensures { result ≡ word_at bytes.now k }
{
    if bytes.len() / WORD <= k {
        0
    } else {
        table_words::word_at(bytes, k)
    }
}

// How many words from word k on can be read, n or fewer, into so many places.
fn readable(bytes: &[u8], k: usize, n: u32, room: usize) -> usize
    ensures { Readable bytes.now k (min n room) result }
{
    let all = bytes.len() / WORD;
    if all < k {
        0
    } else {
        (n as usize).min(room).min(all - k)
    }
}

// Reads n words from word k on, as many as the record has and `to` has places, and answers how
// many.
pub fn words(bytes: &[u8], k: usize, n: u32, to: &mut [u32]) -> usize
    ensures { Listed (words_in bytes.now k (min n (length to.old))) to.old result to.new }
{
    let count = readable(bytes, k, n, to.len());
    if count == 0 {
        return 0;
    }
    table_words::read_words(bytes, k, count, to);
    count
}

// The same as signed numbers.
pub fn numbers(bytes: &[u8], k: usize, n: u32, to: &mut [i32]) -> usize
    ensures { Listed (numbers_in bytes.now k (min n (length to.old))) to.old result to.new }
{
    let count = readable(bytes, k, n, to.len());
    if count == 0 {
        return 0;
    }
    table_words::read_numbers(bytes, k, count, to);
    count
}

// Row k after the head, 0 past the record's end.
fn row(bytes: &[u8], k: usize) -> mesh::Row
    requires { k < 4294967296 }
    ensures { result ≡ row_in bytes.now k }
{
    let mut row = [0i32; mesh::ROW];
    numbers(bytes, HEAD / WORD + mesh::ROW * k, NUMBERS, &mut row);
    row
}

// Reads the first n rows after the head, as many as `to` has places, and answers how many.
pub fn rows(bytes: &[u8], n: u32, to: &mut [mesh::Row]) -> usize
    ensures { Listed (rows_in bytes.now (min n (length to.old))) to.old result to.new }
{
    let count = (n as usize).min(to.len());
    for k in 0..count {
        to[k] = row(bytes, k);
    }
    count
}
