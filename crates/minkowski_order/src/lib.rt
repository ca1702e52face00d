// All pairs of two operands' walks in order (int/minkowski.rs, `sum_parts`), each as pair_chains
// takes it: `pair_next` and `four_next` are the pairs at a place, `after` is the next place, and
// `merge_pair` puts one pair's contour into a work buffer. Walks lie in one buffer, the left
// operand's first (pair_walks), with a number a point (pair_numbers). Leans on pair_chains,
// pair_walks and pair_numbers.
#![tactic(auto)]

ghost use Rattle.std.specs.Prelude.{◌≡◌, ◌+◌, ◌-◌, ◌<◌, ◌≤◌, ◌^◌, length, get_or};
ghost use Rattle.pair_merge.specs.Putting.{RoomAfter, CornersPut};
ghost use Rattle.pair_walks.specs.Walks.{pair_in};
ghost use Rattle.pair_numbers.specs.Numbers.{Keyed};
ghost use Rattle.minkowski_order.specs.Order.{pair_from, pair_at, Between, Onward, IsPair, FourNext, Used, PairRoom, More};

use pair_chains::{Pair, Pairs};

// Where all pairs have come to: left walk p and right walk q are next, pair n in order, after k
// corners.
#[derive(Clone, Copy)]
pub struct Place {
    pub p: usize,
    pub q: usize,
    pub n: usize,
    pub k: usize,
}

// Four pairs, and the place after them.
#[derive(Clone, Copy)]
pub struct Next {
    pub x: Pairs,
    pub s: Place,
}

// The place of the pair after that, after k corners.
pub fn after(s: Place, left: usize, right: usize, k: usize) -> Place
    requires { More left right 1 s }
    ensures { Onward left right 1 k s result }
{
    let q = s.q + 1;
    let (p, q) = if q == right { (s.p + 1, 0) } else { (s.p, q) };
    let n = s.n + 1;
    Place { p, q, n, k }
}

// Two walks from i and j up to m and n, as a pair to be merged.
fn pair_from(i: usize, m: usize, j: usize, n: usize) -> Pair
    requires { (i ≤ m) × (m < 2 ^ 32) × (j ≤ n) × (n < 2 ^ 32) }
    ensures { result ≡ pair_from i m j n }
{
    if i == m || j == n {
        return Pair { i: 0, j: 0, end: 0 };
    }
    Pair {
        i,
        j,
        end: m + n - 2,
    }
}

// First place n.
pub fn first(firsts: &[u32], n: usize) -> usize
    requires { n < length firsts.now }
    ensures { (result ≡ get_or firsts.now n 0) × (result < 2 ^ 32) }
{
    firsts[n] as usize
}

// Left walk p and right walk q as a pair to be merged.
fn pair_at(firsts: &[u32], left: usize, p: usize, q: usize) -> Pair
    requires { Between firsts.now p × Between firsts.now (left + q) }
    ensures { result ≡ pair_at firsts.now left p q }
{
    let right = left + q;
    pair_from(
        first(firsts, p),
        first(firsts, p + 1),
        first(firsts, right),
        first(firsts, right + 1),
    )
}

// The contour of left walk p and right walk q, on the front of the work buffer; of buffers cut to
// the points in use.
fn merge_used(
    firsts: &[u32],
    points: &[[i32; 2]],
    numbers: &[u64],
    left: usize,
    right: usize,
    p: usize,
    q: usize,
    out: &mut [i32],
    at: usize,
) -> usize
    requires { Used firsts.now points.now numbers.now left right
        × (p < left)
        × (q < right)
        × RoomAfter (pair_in firsts.now points.now left right p q) out.old at }
    ensures { CornersPut (pair_in firsts.now points.now left right p q) out.old at out.new result }
{
    let x = pair_at(firsts, left, p, q);
    pair_chains::merge_one(points, numbers, x, out, at)
}

// The contour of left walk p and right walk q is put on the front of the work buffer; answers how
// many corners it has.
pub fn merge_pair(
    firsts: &[u32],
    points: &[[i32; 2]],
    numbers: &[u64],
    left: usize,
    right: usize,
    p: usize,
    q: usize,
    work: &mut [i32],
) -> usize
    requires { Keyed firsts.now points.now numbers.now left right × (p < left) × (q < right) × PairRoom points.now work.old }
    ensures { CornersPut (pair_in firsts.now points.now left right p q) work.old 0 work.new result }
{
    let n = first(firsts, left + right);
    merge_used(
        firsts,
        &points[..n],
        &numbers[..n],
        left,
        right,
        p,
        q,
        work,
        0,
    )
}

// The pair at a place.
pub fn pair_next(
    firsts: &[u32],
    points: &[[i32; 2]],
    numbers: &[u64],
    left: usize,
    right: usize,
    s: Place,
) -> Pair
    requires { Used firsts.now points.now numbers.now left right × More left right 1 s }
    ensures { IsPair firsts.now points.now numbers.now left right s.n result }
{
    pair_at(firsts, left, s.p, s.q)
}

// The four pairs from a place on.
pub fn four_next(
    firsts: &[u32],
    points: &[[i32; 2]],
    numbers: &[u64],
    left: usize,
    right: usize,
    s: Place,
) -> Next
    requires { Used firsts.now points.now numbers.now left right × More left right 4 s }
    ensures { FourNext firsts.now points.now numbers.now left right s result }
{
    let k = s.k;
    let t = after(s, left, right, k);
    let u = after(t, left, right, k);
    let v = after(u, left, right, k);
    let x = Pairs {
        a: pair_next(firsts, points, numbers, left, right, s),
        b: pair_next(firsts, points, numbers, left, right, t),
        c: pair_next(firsts, points, numbers, left, right, u),
        d: pair_next(firsts, points, numbers, left, right, v),
    };
    Next {
        x,
        s: after(v, left, right, k),
    }
}
