// A mesh written by hand turned into a mesh file: `to_mesh_file`, of any bytes. Its answer and the
// lent bytes as it returns equal `conversion` and `bytes_converted` of specs/Conversion.antt: a
// text that is not as a mesh is written is refused by its first wrong line and changes nothing. The
// words are gathered line by line and written once the whole text is judged. What is told of a
// refusal is mesh_told's. Leans on mesh_lines, fields, table_write and table_words.
#![tactic(auto)]

ghost use Rattle.std.specs.Prelude.{◌≡◌, ◌∷◌, ◌+◌, ◌*◌, ◌-◌, ◌≤◌, length};
ghost use Rattle.integers.specs.Lists.{overlay};
ghost use Rattle.table.specs.Stored.{word_bytes};
ghost use Rattle.mesh.specs.Rows.{row_width, row_bytes};
ghost use Rattle.mesh_fields.specs.Put.{Put};
ghost use Rattle.mesh_text.specs.Text.{max_written, max_telling, file_room, mark_end, fits, line_words};
ghost use Rattle.mesh_text.specs.Gathering.{gather_room, fewer, Taken, Gathered};
ghost use Rattle.mesh_text.specs.Conversion.{max_text, conversion, bytes_converted};

use fields::Run;
use mesh::{ROW, ROW_BYTES};

// The longest text that is read: the most triangles, written with no byte to spare, take less than
// half of it.
pub const MAX_TEXT: usize = 262144;

// One triangle more than a mesh may have, so that fault 1 can be written.
pub const MAX_WRITTEN: usize = mesh::MAX_TRIANGLES + 1;

// The bytes of the header, behind which the records begin (document 01).
const HEADER: usize = 20;

// The bytes of the longest file, and the words of it that are gathered: two of the first line, and
// each triangle's.
pub const FILE_ROOM: usize = HEADER + ROW_BYTES * MAX_WRITTEN;

const GATHER_ROOM: usize = ROW * MAX_WRITTEN + 2;

// How many words fewer the first line gives than a triangle's.
const FEWER: usize = ROW - 2;

// What a text is refused by: its first wrong line, counted from 1, or its length.
#[derive(Clone, Copy)]
pub enum NotConverted {
    Wrong(usize),
    TooLong,
}

// A line was taken, or is wrong; and how many lines that say something have been taken with it.
#[derive(Clone, Copy)]
pub struct Step {
    pub right: bool,
    pub count: usize,
}

// The first wrong line, 0 for none, and how many lines said something.
#[derive(Clone, Copy)]
pub struct Reading {
    pub wrong: usize,
    pub count: usize,
}

// Where a text begins: behind the byte-order mark that some editors put first.
pub fn mark_end(text: &[u8]) -> usize
    ensures { (result ≡ mark_end text.now) × (result ≤ length text.now) }
{
    if text.len() < 3 {
        return 0;
    }
    if text[0] != 239 {
        return 0;
    }
    if text[1] != 187 {
        return 0;
    }
    if text[2] != 191 {
        return 0;
    }
    3
}

// Puts the words of line number `count` of those that say something: the first line's, or a
// triangle's.
fn put_line(line: &[u8], count: usize, words: &mut [u32]) -> bool
    requires { gather_room ≤ length words.old }
    ensures { Put (fits count line.now) (line_words count line.now) (row_width * count - fewer) words.old
        words.new result }
{
    if count == 0 {
        return mesh_lines::put_head(line, words);
    }
    if count > MAX_WRITTEN {
        return false;
    }
    mesh_lines::put_triangle(line, ROW * count - FEWER, words)
}

// Takes a line, behind `count` that say something.
fn take_line(line: &[u8], count: usize, words: &mut [u32]) -> Step
    requires { (gather_room ≤ length words.old) × (count ≤ max_telling) }
    ensures { Taken line.now count words.old words.new result }
{
    if mesh_lines::passed_over(line) {
        return Step { right: true, count };
    }
    if put_line(line, count, words) {
        return Step {
            right: true,
            count: count + 1,
        };
    }
    Step {
        right: false,
        count,
    }
}

// Gathers the words of every line, up to the first that is wrong.
fn gather(text: &[u8], words: &mut [u32]) -> Reading
    requires { (gather_room ≤ length words.old) × (length text.now ≤ max_text) }
    ensures { Gathered text.now words.old words.new result }
{
    let mut at = mark_end(text);
    let mut line: usize = 0;
    let mut count: usize = 0;
    while at < text.len() {
        let end = fields::run_end(Run::Line, text, at);
        let step = take_line(&text[at..end], count, words);
        line += 1;
        if step.right {
            count = step.count;
            at = end + 1;
        } else {
            return Reading {
                wrong: line,
                count: 0,
            };
        }
    }
    if count == 0 {
        return Reading {
            wrong: line + 1,
            count: 0,
        };
    }
    Reading { wrong: 0, count }
}

// Writes the file of so many triangles whose words from the corner limit on are gathered; answers
// how many bytes it has.
fn write_file(count: usize, gathered: &[u32], out: &mut [u8]) -> usize
    requires { (count ≤ max_written) × (length gathered.now ≡ row_width * count + 2) × (file_room ≤ length out.old) }
    ensures told { result ≡ 20 + row_bytes * count }
    ensures bytes { out.new ≡ overlay (word_bytes ((20 + row_bytes * count) ∷ count ∷ 20 ∷ gathered.now)) out.old }
{
    let total = HEADER + ROW_BYTES * count;
    table_words::put_word(out, 0, total as u32);
    table_words::put_word(out, 1, count as u32);
    table_words::put_word(out, 2, HEADER as u32);
    table_write::write_words(gathered, 3, out);
    total
}

// Turns a text into a mesh file on the front of the lent bytes and answers how many bytes it has.
// Refuses a text that is too long, and then by its first wrong line, before the first store.
pub fn to_mesh_file(text: &[u8], out: &mut [u8; FILE_ROOM]) -> Result<usize, NotConverted>
    ensures told { result ≡ conversion text.now }
    ensures bytes { out.new ≡ bytes_converted text.now out.old }
{
    if text.len() > MAX_TEXT {
        return Err(NotConverted::TooLong);
    }
    let mut words = [0u32; GATHER_ROOM];
    let read = gather(text, &mut words);
    if read.wrong != 0 {
        return Err(NotConverted::Wrong(read.wrong));
    }
    let count = read.count - 1;
    let size = ROW * count + 2;
    Ok(write_file(count, &words[..size], out))
}
