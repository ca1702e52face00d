// The fields of a mesh that is written by hand: a point, a number or `none`, a split, each read and
// its 32-bit words put at a place of lent words, as the mesh file has them. Each equals its
// definition in specs/Entries.antt, of any bytes; what a put leaves is `Put` of specs/Put.antt: a
// field that is wrong is told by false. An inner layer of mesh_lines: callers show that there is
// room. Leans on field_numbers and fields.
#![tactic(auto)]

ghost use Rattle.std.specs.Prelude.{◌≡◌, ◌+◌, ◌<◌, ◌≤◌, length, is_some, option_to_list, unwrap_or, IfSome};
ghost use Rattle.field_numbers.specs.Numbers.{told};
ghost use Rattle.mesh_fields.specs.Entries.{same_bytes, is_number_or_none, number_or_none, is_split, split_of, comma_of, is_point, point_read, point_words};
ghost use Rattle.mesh_fields.specs.Put.{Put};

use fields::Run;

// No neighbour (document 01), and no corner limit: the greatest number of 32 bits.
pub const LAST_WORD: u32 = u32::MAX;

// Whether the field is this word.
pub fn is_word(entry: &[u8], word: &[u8]) -> bool
    ensures { result ≡ same_bytes entry.now word.now }
{
    entry == word
}

// The field read as a number or `none`, as a neighbour and the corner limit are written.
pub fn number_or_none(entry: &[u8]) -> Option<u32>
    ensures { result ≡ told (is_number_or_none entry.now) (number_or_none entry.now) }
{
    if is_word(entry, b"none") {
        Some(LAST_WORD)
    } else {
        field_numbers::number(entry, LAST_WORD)
    }
}

// The field read as a split: `ear` is 0, `fan` 1 and `centroid` 2, as in the mesh file.
pub fn split(entry: &[u8]) -> Option<u32>
    ensures { result ≡ told (is_split entry.now) (split_of entry.now) }
{
    if is_word(entry, b"ear") {
        Some(0)
    } else if is_word(entry, b"fan") {
        Some(1)
    } else if is_word(entry, b"centroid") {
        Some(2)
    } else {
        None
    }
}

// Puts the number at a place of the lent words, where there is one.
pub fn put_reading(n: Option<u32>, at: usize, words: &mut [u32]) -> bool
    requires { at + 1 ≤ length words.old }
    ensures { Put (is_some n) (option_to_list n) at words.old words.new result }
{
    let Some(bits) = n else {
        return false;
    };
    words[at] = bits;
    true
}

// The place of the comma of a field that is written `(` .. `,` .. `)`.
fn comma(entry: &[u8]) -> Option<usize>
    ensures { (unwrap_or result 0 ≡ comma_of entry.now) × IfSome result (λ c. (1 ≤ c) × (c + 1 < length entry.now)) }
{
    let [b'(', .., b')'] = entry else {
        return None;
    };
    let at = fields::run_end(Run::Comma, entry, 1);
    if at + 1 < entry.len() { Some(at) } else { None }
}

// Puts the field's two coordinates, where it is a point.
pub fn put_point(entry: &[u8], at: usize, words: &mut [u32]) -> bool
    requires { at + 2 ≤ length words.old }
    ensures { Put (is_point entry.now) (point_words (point_read entry.now)) at words.old words.new result }
{
    let Some(c) = comma(entry) else {
        return false;
    };
    let x = field_numbers::coordinate(&entry[1..c]);
    let y = field_numbers::coordinate(&entry[c + 1..entry.len() - 1]);
    put_reading(x, at, words) && put_reading(y, at + 1, words)
}
