// A field read as a number in decimal, or as a coordinate: whether it is one, and its 32 bits. Each
// equals its definition in specs/Numbers.antt, of any bytes. An inner layer of mesh_lines. Leans on
// fields and integers.
#![tactic(auto)]

ghost use Rattle.std.specs.Prelude.{◌≡◌, true, ◌-◌, ◌<◌, ◌≤◌, length, pos, neg_ℤ};
ghost use Rattle.integers.specs.Word.{unsigned};
ghost use Rattle.fields.specs.Fields.{is_digit, run_length};
ghost use Rattle.field_numbers.specs.Numbers.{value_of, number_read, coordinate_read};

use fields::Run;

// The most digits of a number, so that its value fits 64 bits.
const MAX_DIGITS: usize = 10;

// The sizes of the least and the greatest coordinate.
const LEAST: u32 = 2147483648;

const GREATEST: u32 = 2147483647;

// The value of a digit.
fn digit(b: u8) -> u64
    requires { is_digit b ≡ true }
    ensures { (result ≡ b - 48) × (result < 10) }
{
    (b - b'0') as u64
}

// The value of up to ten digits.
fn value(digits: &[u8]) -> u64
    requires { (length digits.now ≤ 10) × (run_length is_digit digits.now ≡ length digits.now) }
    ensures { result ≡ value_of digits.now }
{
    let mut v: u64 = 0;
    for b in digits {
        v = 10 * v + digit(*b);
    }
    v
}

// The field read as a number of at most `most`.
pub fn number(digits: &[u8], most: u32) -> Option<u32>
    ensures { result ≡ number_read most digits.now }
{
    if digits.is_empty() || digits.len() > MAX_DIGITS {
        return None;
    }
    if fields::run_end(Run::Digits, digits, 0) != digits.len() {
        return None;
    }
    let v = value(digits);
    if v > most as u64 {
        return None;
    }
    Some(v as u32)
}

// The 32 bits of a number of this size below 0.
fn negative(size: u32) -> u32
    requires { size ≤ 2147483648 }
    ensures { result ≡ unsigned (neg_ℤ (pos size)) }
{
    size.wrapping_neg()
}

// The field read as a coordinate: a minus before a number below 0.
pub fn coordinate(digits: &[u8]) -> Option<u32>
    ensures { result ≡ coordinate_read digits.now }
{
    match digits {
        [b'-', size @ ..] => Some(negative(number(size, LEAST)?)),
        _ => number(digits, GREATEST),
    }
}
