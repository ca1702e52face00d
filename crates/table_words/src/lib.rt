// Words of 32 bits in lent bytes, little-endian, as tables and samples are stored: one read, many
// read into a lent slice, one written, and a signed number's word either way. Each equals its
// definition in table's specs/Stored.antt; `put_words` of specs/Place.antt says what lent bytes
// hold after words were written at a place. An inner layer of table_read, table_write and the
// samples: callers show that the place lies within the bytes. Leans on table.
#![tactic(auto)]

ghost use Rattle.std.specs.Prelude.{◌≡◌, [], ◌∷◌, map, ◌+◌, ◌*◌, ◌%◌, ◌≤◌, length, take, drop};
ghost use Rattle.integers.specs.Lists.{overlay};
ghost use Rattle.table.specs.Stored.{word_of, words_of, word_at, signed};
ghost use Rattle.table_words.specs.Place.{put_words};

// The bytes of a word, and of the two counts that a stored table opens with.
pub const WORD: usize = 4;

pub const HEADER: usize = 8;

// Word k of the bytes.
pub fn word_at(bytes: &[u8], k: usize) -> u32
    requires { 4 * k + 4 ≤ length bytes.now }
    ensures { result ≡ word_at bytes.now k }
{
    let at = 4 * k;
    u32::from_le_bytes([bytes[at], bytes[at + 1], bytes[at + 2], bytes[at + 3]])
}

// A word's bits as a signed number.
pub fn signed_word(n: u32) -> i32
    ensures { result ≡ signed n }
{
    n.cast_signed()
}

// Copies `count` words, from word `from` on, on the front of `to`. Past them it keeps what it held.
pub fn read_words(bytes: &[u8], from: usize, count: usize, to: &mut [u32])
    requires { (4 * (from + count) ≤ length bytes.now) × (count ≤ length to.old) }
    ensures { to.new ≡ overlay (take count (drop from (words_of bytes.now))) to.old }
{
    for i in 0..count {
        to[i] = word_at(bytes, from + i);
    }
}

// The same, as signed numbers.
pub fn read_numbers(bytes: &[u8], from: usize, count: usize, to: &mut [i32])
    requires { (4 * (from + count) ≤ length bytes.now) × (count ≤ length to.old) }
    ensures { to.new ≡ overlay (map signed (take count (drop from (words_of bytes.now)))) to.old }
{
    for i in 0..count {
        to[i] = signed_word(word_at(bytes, from + i));
    }
}

// Writes word k of the bytes, the least byte first. All others keep what they held.
pub fn put_word(bytes: &mut [u8], k: usize, word: u32)
    requires { 4 * k + 4 ≤ length bytes.old }
    ensures { bytes.new ≡ put_words k (word ∷ []) bytes.old }
{
    let at = 4 * k;
    bytes[at..at + WORD].copy_from_slice(&word.to_le_bytes());
}
