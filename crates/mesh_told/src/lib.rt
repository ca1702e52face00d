// What is told of a text that was to be turned into a mesh file: nothing where it was, else which
// line is wrong, what stands there and what should; or that it is too long. `put_told` puts it into
// lent bytes; what it puts is `told_of` of specs/Told.antt, of any text and any answer of
// to_mesh_file. Leans on mesh_wrong, mesh_text, mesh_lines, fields and text.
#![tactic(auto)]

ghost use Rattle.std.specs.Prelude.{◌≡◌, true, cond, ◌+◌, ◌≤◌, length};
ghost use Rattle.io.specs.Counts.{IsPrefixLen};
ghost use Rattle.text.specs.Put.{PutText};
ghost use Rattle.mesh_lines.specs.Lines.{is_passed_over};
ghost use Rattle.mesh_told.specs.Told.{shown_of, standing, should, said_of, says, wrong_told, told_of, standing_room, should_room, said_room, told_room};
ghost use Rattle.mesh_told.specs.Search.{Sought};

use fields::Run;
use mesh_text::{MAX_WRITTEN, NotConverted};
use mesh_wrong::Wanted;

// The bytes of the longest that is told of a text; a line's number has at most 20 digits.
pub const TOLD_ROOM: usize = 128;

// As many bytes of a wrong field are told at most.
const MAX_SHOWN: usize = 40;

// Where a line stands in a text, if it does, and how many lines before it say something.
#[derive(Clone, Copy)]
pub struct Found {
    pub there: bool,
    pub from: usize,
    pub end: usize,
    pub count: usize,
}

// How many bytes of a field are told.
fn shown(n: usize) -> usize
    ensures { (result ≡ shown_of n) × (result ≤ n) }
{
    n.min(MAX_SHOWN)
}

// What stands at a wrong field.
fn put_standing(entry: &[u8], out: &mut [u8], at: usize) -> usize
    requires { at + standing_room ≤ length out.old }
    ensures { PutText (standing entry.now) at out.old out.new result }
{
    if entry.len() == 0 {
        return text::put_bytes(b"the line ends", out, at);
    }
    let open = text::put_bytes(b"\"", out, at);
    let n = shown(entry.len());
    let close = text::put_bytes(&entry[..n], out, open);
    text::put_bytes(b"\" stands", out, close)
}

// What should.
fn put_should(wanted: Wanted, out: &mut [u8], at: usize) -> usize
    requires { at + should_room ≤ length out.old }
    ensures { PutText (should wanted) at out.old out.new result }
{
    match wanted {
        Wanted::Name => text::put_bytes(b" where limit should\n", out, at),
        Wanted::Limit => text::put_bytes(b" where a number or none should\n", out, at),
        Wanted::Split => text::put_bytes(b" where ear, fan or centroid should\n", out, at),
        Wanted::Point => text::put_bytes(b" where a point (x,y) should\n", out, at),
        Wanted::Neighbour => text::put_bytes(
            b" where a triangle's number or none should\n",
            out,
            at,
        ),
        Wanted::End => text::put_bytes(b" where the line should end\n", out, at),
    }
}

// What is told of a wrong line behind `count` that say something.
fn put_said(line: &[u8], count: usize, out: &mut [u8], at: usize) -> usize
    requires { at + said_room ≤ length out.old }
    ensures { PutText (said_of count line.now) at out.old out.new result }
{
    if count > MAX_WRITTEN {
        return text::put_bytes(b"a triangle more than the 1,025 that are taken\n", out, at);
    }
    let j = mesh_wrong::wrong_field(line, count);
    let entry = fields::field(line, j);
    let after = put_standing(entry, out, at);
    put_should(mesh_wrong::wanted_at(count, j), out, after)
}

// 1 for a line that says something, 0 for one that is passed over.
fn says_something(line: &[u8]) -> usize
    ensures { (result ≡ says line.now) × (result ≤ 1) }
{
    if mesh_lines::passed_over(line) { 0 } else { 1 }
}

// Finds a line by its number, counted from 1.
fn find(text: &[u8], number: usize) -> Found
    ensures { Sought text.now number result }
{
    let mut from = mesh_text::mark_end(text);
    let mut left = number;
    let mut count: usize = 0;
    while from < text.len() {
        let end = fields::run_end(Run::Line, text, from);
        if left < 2 {
            return Found {
                there: true,
                from,
                end,
                count,
            };
        }
        count += says_something(&text[from..end]);
        left -= 1;
        from = end + 1;
    }
    Found {
        there: false,
        from: 0,
        end: 0,
        count: 0,
    }
}

// Which line is wrong, what stands there and what should.
fn put_wrong(text: &[u8], number: usize, out: &mut [u8]) -> usize
    requires { told_room ≤ length out.old }
    ensures { PutText (wrong_told text.now number) 0 out.old out.new result }
{
    let named = text::put_word_decimal(b"line ", number as u64, out, 0);
    let at = text::put_bytes(b": ", out, named);
    let found = find(text, number);
    if found.there {
        return put_said(&text[found.from..found.end], found.count, out, at);
    }
    text::put_bytes(b"the text ends where limit should\n", out, at)
}

// Puts what is told of a text on the front of the lent bytes and answers how many bytes it has,
// none where a file was written. The last clause says again, in io's words, that they stand within
// the lent ones, for a caller that lends them on.
pub fn put_told(told: Result<usize, NotConverted>, text: &[u8], out: &mut [u8; TOLD_ROOM]) -> usize
    ensures text { PutText (told_of told text.now) 0 out.old out.new result }
    ensures counted { IsPrefixLen result out.new }
{
    let Err(refused) = told else {
        return 0;
    };
    match refused {
        NotConverted::Wrong(number) => put_wrong(text, number, out),
        NotConverted::TooLong => text::put_bytes(
            b"the text is longer than 262,144 bytes\n",
            out,
            0,
        ),
    }
}
