// A number of two words divided by one word: whole, with what is left (`divide`), and rounded to
// nearest (`divide_with_rounding`). Each is the quotient of the numbers in ℕ
// (specs/Quotients.antt). Leans on wide.
#![tactic(auto)]

ghost use Rattle.std.specs.Prelude.{◌≡◌, ◌+◌, ◌*◌, ◌^◌, ◌≤◌, ◌<◌};
ghost use Rattle.wide.specs.Words.{two_words};
ghost use Rattle.wide_divide.specs.Quotients.{Divided, Normal, nearest};

use wide::HALF;

// A quotient and what is left.
#[derive(Clone, Copy)]
pub struct Quotient {
    pub quotient: u64,
    pub remainder: u64,
}

// A digit of 32 bits: u * 2^32 + x by v, whose top bit is set. The first guess, by v's upper half
// alone, is at most two too large (Knuth, The Art of Computer Programming 2, 4.3.1, theorem B).
fn divide_digit(u: u64, x: u64, v: u64) -> Quotient
    requires { (2 ^ 63 ≤ v) × (u < v) × (x < 2 ^ 32) }
    ensures { Divided (u * 2 ^ 32 + x) v result × (result.quotient < 2 ^ 32) }
{
    let upper = v / HALF;
    let lower = v % HALF;
    let mut q = u / upper;
    let mut rest = u % upper;
    while rest < HALF {
        let product = q * lower;
        let sum = rest * HALF + x;
        if product <= sum {
            return Quotient {
                quotient: q,
                remainder: sum - product,
            };
        }
        q -= 1;
        rest += upper;
    }
    let product = q * lower;
    Quotient {
        quotient: q,
        remainder: ((rest - HALF) * HALF + x).wrapping_sub(product),
    }
}

// (high, low) by v, whose top bit is set: two digits.
fn divide_normal(high: u64, low: u64, v: u64) -> Quotient
    requires { (2 ^ 63 ≤ v) × (high < v) }
    ensures { Divided (two_words high low) v result }
{
    let first = divide_digit(high, low / HALF, v);
    let second = divide_digit(first.remainder, low % HALF, v);
    Quotient {
        quotient: first.quotient * HALF + second.quotient,
        remainder: second.remainder,
    }
}

// How often d is to be doubled until its top bit is set.
fn doublings(d: u64) -> u32
    requires { 0 < d }
    ensures { Normal d result }
{
    d.leading_zeros()
}

// (high, low) by d, where high is below d, so that the quotient fits a word. One division where
// high is 0; otherwise both are doubled until d's top bit is set, which leaves the quotient as it
// is.
pub fn divide(high: u64, low: u64, d: u64) -> Quotient
    requires { high < d }
    ensures { Divided (two_words high low) d result }
{
    if high == 0 {
        return Quotient {
            quotient: low / d,
            remainder: low % d,
        };
    }
    let s = doublings(d);
    let top = (high << s) + ((low >> 1) >> (63 - s));
    let q = divide_normal(top, low << s, d << s);
    Quotient {
        quotient: q.quotient,
        remainder: q.remainder >> s,
    }
}

// (high, low) by d to nearest, a half up.
pub fn divide_with_rounding(high: u64, low: u64, d: u64) -> u64
    requires { (high < d) × (nearest (two_words high low) d < 2 ^ 64) }
    ensures { result ≡ nearest (two_words high low) d }
{
    let q = divide(high, low, d);
    if q.remainder >= d - q.remainder {
        q.quotient + 1
    } else {
        q.quotient
    }
}
