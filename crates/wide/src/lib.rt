// Numbers of two 64-bit words, for sums of products that one word does not hold: i_float's
// `SignedProduct`. A product with its sign (`multiply`) and a sum (`add`), each equal to that of
// the numbers in ℤ (specs/Words.antt). Leans on integers.
#![tactic(auto)]

ghost use Rattle.std.specs.Prelude.{◌≡◌, not, ◌+◌, ◌*◌, ◌^◌, ◌≤◌, ◌<◌, ltb, nat_abs, ◌+ℤ◌, ◌*ℤ◌};
ghost use Rattle.wide.specs.Words.{two_words, magnitude, signed, value};

// A number of two words.
#[derive(Clone, Copy)]
pub struct Words {
    pub high: u64,
    pub low: u64,
}

// The same with a sign; 0 may have either.
#[derive(Clone, Copy)]
pub struct SignedProduct {
    pub negative: bool,
    pub words: Words,
}

// Half a word, from 0: what 32 bits do not hold.
pub const HALF: u64 = 4294967296;

// a * b, by the halves of a.
pub fn multiply_words(a: u64, b: u32) -> Words
    ensures { magnitude result ≡ a * b }
{
    let below = (a % HALF) * (b as u64);
    let above = (a / HALF) * (b as u64) + below / HALF;
    Words {
        high: above / HALF,
        low: above % HALF * HALF + below % HALF,
    }
}

// The size of a number.
pub fn absolute(z: i64) -> u64
    requires { nat_abs z < 2 ^ 63 }
    ensures { result ≡ nat_abs z }
{
    z.unsigned_abs()
}

// a + b: the low words are added so that they wrap, and the carry goes to the high word.
pub fn add_magnitudes(a: Words, b: Words) -> Words
    requires { a.high + b.high + 1 < 2 ^ 64 }
    ensures { magnitude result ≡ magnitude a + magnitude b }
{
    let sum = integers::add_words(a.low, b.low);
    Words {
        high: a.high + b.high + sum.carry,
        low: sum.low,
    }
}

// a - b.
pub fn subtract_magnitudes(a: Words, b: Words) -> Words
    requires { magnitude b ≤ magnitude a }
    ensures { magnitude result + magnitude b ≡ magnitude a }
{
    let (low, borrow) = a.low.overflowing_sub(b.low);
    Words {
        high: a.high - b.high - u64::from(borrow),
        low,
    }
}

// Whether a < b.
pub fn less_magnitude(a: Words, b: Words) -> bool
    ensures { result ≡ ltb (magnitude a) (magnitude b) }
{
    if a.high == b.high {
        a.low < b.low
    } else {
        a.high < b.high
    }
}

// a * b.
pub fn multiply(a: i64, b: i64) -> SignedProduct
    requires { (nat_abs a < 2 ^ 63) × (nat_abs b < 2 ^ 32) }
    ensures { value result ≡ a *ℤ b }
{
    SignedProduct {
        negative: (a < 0) != (b < 0),
        words: multiply_words(absolute(a), absolute(b) as u32),
    }
}

// a with a sign, and b with the other: the lesser is taken from the greater.
fn add_opposite(negative: bool, a: Words, b: Words) -> SignedProduct
    ensures { value result ≡ signed negative (magnitude a) +ℤ signed (not negative) (magnitude b) }
{
    if less_magnitude(a, b) {
        SignedProduct {
            negative: !negative,
            words: subtract_magnitudes(b, a),
        }
    } else {
        SignedProduct {
            negative,
            words: subtract_magnitudes(a, b),
        }
    }
}

// a + b.
pub fn add(a: SignedProduct, b: SignedProduct) -> SignedProduct
    requires { a.words.high + b.words.high + 1 < 2 ^ 64 }
    ensures { value result ≡ value a +ℤ value b }
{
    if a.negative == b.negative {
        SignedProduct {
            negative: a.negative,
            words: add_magnitudes(a.words, b.words),
        }
    } else {
        add_opposite(a.negative, a.words, b.words)
    }
}
