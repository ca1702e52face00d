// The tests of a drawing's numbers, and a grid coordinate from one: a millimetre coordinate less
// the origin, rounded once, times the step count, to the nearest whole number, halves away from
// zero. The definitions are in specs/Grid.antt; proofs/Bound.antt shows that a coordinate lies
// within one half plus 2^-23 of the exact one, and is exact where that is whole. Leans on floats.
#![tactic(auto)]

ghost use Rattle.std.specs.Prelude.{◌≡◌, false, T, pos, negsuc};
ghost use Rattle.std.specs.Float.{fin};
ghost use Rattle.std.specs.Float.Ieee.{lt};
ghost use Rattle.floats.specs.Floats.{number, multiple, signed, nearest as nearest_of};
ghost use Rattle.grid.specs.Grid.{within_range, step_count, on_grid, scaled as scaled_of};

// A current point's coordinates lie within this of zero.
const RANGE: f64 = 1048576.0;

// 2^30 less one half: what rounds to less than 2^30 lies below it.
const EDGE: f64 = 1073741823.5;

// Neither an infinity nor a NaN.
pub fn is_finite(x: f64) -> bool
    ensures { result ≡ number x }
{
    x.is_finite()
}

// Whether a coordinate of a current point lies within the range, its ends included.
pub fn within_range(x: f64) -> bool
    ensures { result ≡ within_range x }
{
    x <= RANGE && -RANGE <= x
}

// The weight of an f64's exponent in its bits: below it stand the digits after the first.
const EXPONENT_UNIT: u64 = 0x10_0000_0000_0000;

// A power of two from 1 to 1,024: no digit but the first.
pub fn is_step_count(steps: f64) -> bool
    ensures { result ≡ step_count steps }
{
    1.0 <= steps && steps <= 1024.0 && steps.to_bits() % EXPONENT_UNIT == 0
}

// Whether v rounds to a number strictly between -2^30 and 2^30; an infinity does not.
pub fn on_grid(v: f64) -> bool
    ensures { result ≡ on_grid v }
{
    v < EDGE && -EDGE < v
}

// x less the origin, rounded once, times the step count.
pub fn scaled(x: f64, origin: f64, steps: f64) -> f64
    ensures { result ≡ scaled_of x origin steps }
{
    (x - origin) * steps
}

// 1.5 * 2^52: a sum with it has no digit behind the point.
const SHIFT: f64 = 6755399441055744.0;

// One half on the side of zero on which v lies.
fn half_beside(v: f64) -> f64
    ensures { result ≡ fin (lt v (fin false 0 (pos 0))) 1 (negsuc 0) }
{
    if v < 0.0 { -0.5 } else { 0.5 }
}

// One on that side.
fn one_beside(v: f64) -> i32
    ensures { result ≡ signed (lt v (fin false 0 (pos 0))) 1 }
{
    if v < 0.0 { -1 } else { 1 }
}

// v to the nearest whole number, halves away from zero.
pub fn nearest(v: f64) -> i32
    requires { T (on_grid v) }
    ensures { result ≡ nearest_of (multiple v) }
{
    // halves to the even number
    let whole = (v + SHIFT) - SHIFT;
    let k = whole as i32;
    // a half that went towards zero
    if v == whole + half_beside(v) {
        k + one_beside(v)
    } else {
        k
    }
}
