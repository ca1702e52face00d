// Where the right of two meshes, moved by a place, lies by the left one: `placed` takes any bytes,
// a place and two mesh files, and tells apart, touching or overlapping, or the first fault;
// `put_placed` puts that as a line of text. What they answer are equations with specs/Placed.antt;
// that it is so of the meshes is specs/Rightly.antt. Leans on mesh_pair, pairs_place, placement and
// text.
#![tactic(auto)]

ghost use Rattle.std.specs.Prelude.{◌≡◌, length, ◌≤◌};
ghost use Rattle.io.specs.Counts.{IsPrefixLen};
ghost use Rattle.plane.specs.Machine.{point};
ghost use Rattle.integers.specs.Lists.{overlay};
ghost use Rattle.text.specs.Put.{PutText};
ghost use Rattle.meshes_place.specs.Placed.{place_of, point_fault, placed_of, answer_text, placed_text};

use file_parts::{NUMBERS, STARTS};
use minkowski::Operation;
use placement::{Contact, Placed};
use plane::IntPoint;
use table_words::{WORD, signed_word, word_at};

// Room for any answer: a refusal's word of eight bytes, at most twenty digits, and the line's end.
pub const LINE: usize = 29;

// The place that bytes begin with.
fn place_at(bytes: &[u8]) -> IntPoint
    requires { 8 ≤ length bytes.now }
    ensures { point result ≡ place_of bytes.now }
{
    IntPoint {
        x: signed_word(word_at(bytes, 0)),
        y: signed_word(word_at(bytes, 1)),
    }
}

// Whether there is a place on the grid: 13 where there is none, 2 where it is not; 0 for no fault.
fn point_fault(bytes: &[u8]) -> u32
    ensures { result ≡ point_fault bytes.now }
{
    if bytes.len() < 2 * WORD {
        return integers::fault::FILE;
    }
    if !plane::on_grid(place_at(bytes)) {
        return integers::fault::RANGE;
    }
    0
}

// Where the right mesh, moved by the place, lies by the left one; or the fault: 13 or 2 of the
// place, then the left file's, then the right's (13, 1, 2, 3, 4, 5, 6 or 11), then 10 and 20.
pub fn placed(bytes: &[u8]) -> Placed
    ensures { result ≡ placed_of bytes.now }
{
    let fault = point_fault(bytes);
    if fault != 0 {
        return Placed::Refused(fault);
    }
    let mut left_starts = [0u32; STARTS];
    let mut left_corners = [0i32; NUMBERS];
    let mut right_starts = [0u32; STARTS];
    let mut right_corners = [0i32; NUMBERS];
    let two = mesh_pair::take_two(
        &bytes[2 * WORD..],
        &mut left_starts,
        &mut left_corners,
        &mut right_starts,
        &mut right_corners,
    );
    if two.fault != 0 {
        return Placed::Refused(two.fault);
    }
    let left = two.left;
    let right = two.right;
    let difference = Operation {
        left: left.bounds,
        right: right.bounds,
        reflected: true,
    };
    let z = place_at(bytes);
    pairs_place::place_operands(
        difference,
        &left_starts[..left.parts + 1],
        file_parts::front(&left_corners, left.corners),
        &right_starts[..right.parts + 1],
        file_parts::front(&right_corners, right.corners),
        z,
    )
}

// Puts an answer as a line on the front of the lent bytes and answers how many bytes it has.
fn put_answer(answer: Placed, out: &mut [u8; LINE]) -> usize
    ensures text { PutText (answer_text answer) 0 out.old out.new result }
    ensures counted { IsPrefixLen result out.new }
{
    match answer {
        Placed::At(contact) => match contact {
            Contact::Apart => text::put_bytes(b"apart\n", out, 0),
            Contact::Touching => text::put_bytes(b"touching\n", out, 0),
            Contact::Overlapping => text::put_bytes(b"overlapping\n", out, 0),
        },
        Placed::Refused(fault) => text::put_refusal(fault, out, 0),
    }
}

// The same of a place and two mesh files. The last clause says again, in io's words, that the line
// stands within the lent bytes, for a caller that lends them on.
pub fn put_placed(bytes: &[u8], out: &mut [u8; LINE]) -> usize
    ensures size { result ≡ length (placed_text bytes.now) }
    ensures text { out.new ≡ overlay (placed_text bytes.now) out.old }
    ensures counted { IsPrefixLen result out.new }
{
    put_answer(placed(bytes), out)
}
