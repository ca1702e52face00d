// Numbers and corners as text (specs/Text.antt), put at a place of lent bytes: each `put_..` tells
// the place after its text and leaves every other byte as it was (`PutText`, specs/Put.antt); the
// caller has shown that there is room. That the digits denote the number is specs/Denotes.antt.
// Leans on the kit's io for digits, and on corners, plane and integers.
#![tactic(auto)]

ghost use Rattle.std.specs.Prelude.{◌≡◌, ◌++◌, ◌+◌, ◌≤◌, length, nat_abs};
ghost use Rattle.plane.specs.Machine.{point};
ghost use Rattle.corners.specs.Corners.{points_of};
ghost use Rattle.text.specs.Text.{decimal, signed_decimal, corner_text, corners_text, refusal};
ghost use Rattle.text.specs.Put.{PutText};

use plane::IntPoint;

// The bytes as they are.
pub fn put_bytes(from: &[u8], out: &mut [u8], at: usize) -> usize
    requires { at + length from.now ≤ length out.old }
    ensures { PutText from.now at out.old out.new result }
{
    out[at..at + from.len()].copy_from_slice(from);
    at + from.len()
}

// A number in base ten.
pub fn put_decimal(n: u64, out: &mut [u8], at: usize) -> usize
    requires { at + length (decimal n) ≤ length out.old }
    ensures { PutText (decimal n) at out.old out.new result }
{
    let mut digits = [0u8; 20];
    let places = io::decimal(n, &mut digits);
    put_bytes(&digits[..places], out, at)
}

// How far a number is from 0.
fn size(n: i32) -> u64
    ensures { result ≡ nat_abs n }
{
    u64::from(n.unsigned_abs())
}

// A number in base ten, with a minus where it is below 0.
pub fn put_signed(n: i32, out: &mut [u8], at: usize) -> usize
    requires { at + length (signed_decimal n) ≤ length out.old }
    ensures { PutText (signed_decimal n) at out.old out.new result }
{
    if n < 0 {
        let after = put_bytes(b"-", out, at);
        put_decimal(size(n), out, after)
    } else {
        put_decimal(size(n), out, at)
    }
}

// A word, and a number in base ten after it.
pub fn put_word_decimal(word: &[u8], n: u64, out: &mut [u8], at: usize) -> usize
    requires { at + length (word.now ++ decimal n) ≤ length out.old }
    ensures { PutText (word.now ++ decimal n) at out.old out.new result }
{
    let after = put_bytes(word, out, at);
    put_decimal(n, out, after)
}

// A word, and a number that may be below 0 after it.
pub fn put_word_signed(word: &[u8], n: i32, out: &mut [u8], at: usize) -> usize
    requires { at + length (word.now ++ signed_decimal n) ≤ length out.old }
    ensures { PutText (word.now ++ signed_decimal n) at out.old out.new result }
{
    let after = put_bytes(word, out, at);
    put_signed(n, out, after)
}

// " (x,y)".
pub fn put_corner(p: IntPoint, out: &mut [u8], at: usize) -> usize
    requires { at + length (corner_text (point p)) ≤ length out.old }
    ensures { PutText (corner_text (point p)) at out.old out.new result }
{
    let first = put_word_signed(b" (", p.x, out, at);
    let second = put_word_signed(b",", p.y, out, first);
    put_bytes(b")", out, second)
}

// The corners of a list; a last x without its y is none.
pub fn put_corners(corners: &[i32], out: &mut [u8], at: usize) -> usize
    requires { at + length (corners_text (points_of corners.now)) ≤ length out.old }
    ensures { PutText (corners_text (points_of corners.now)) at out.old out.new result }
{
    let mut after = at;
    for k in 0..corners::corner_count(corners) {
        let p = corners::corner_at(corners, k);
        after = put_corner(p, out, after);
    }
    after
}

// "refused", the number and the line's end (document 01, "The file and its listing").
pub fn put_refusal(fault: u32, out: &mut [u8], at: usize) -> usize
    requires { at + length (refusal fault) ≤ length out.old }
    ensures { PutText (refusal fault) at out.old out.new result }
{
    let word = put_bytes(b"refused ", out, at);
    let number = put_decimal(fault as u64, out, word);
    put_bytes(b"\n", out, number)
}
