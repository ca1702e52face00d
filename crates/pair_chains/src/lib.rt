// Pairs of walks merged by the numbers of their points (direction_keys), over one buffer of points
// and one of numbers: the places where two walks stand follow from the numbers alone, without a
// branch but the loop's (`chain` of specs/Chains.antt), and the corners are the sums there.
// `merge_one` puts a pair's corners, `merge_two` and `merge_four` those of two and four pairs side
// by side, the first into the lent corners and the others into work buffers; `count_one` and
// `count_four` only count them. That these are the merged walks is the law `chain-merged`. Leans on
// direction_keys and pair_merge.
#![tactic(auto)]

ghost use Rattle.std.specs.Prelude.{◌≡◌, Bool, true, false, cond, ◌∷◌, [], ◌+◌, ◌<◌, ◌≤◌, ◌^◌, ltb, length, get_or};
ghost use Rattle.plane.specs.Plane.{◌+ᵖ◌};
ghost use Rattle.points.specs.Points.{corner_in};
ghost use Rattle.pair_merge.specs.Putting.{RoomAfter, CornersPut};
ghost use Rattle.pair_chains.specs.Chains.{left_after, right_after, contour_from, chain_contour, chain, chain_of, four_lengths, both_going, lane_of, Buffers, Runs, Low, Fits, FourFit, Countable};

// Where a pair is being merged: the places of the two walks, and how many corners are put.
#[derive(Clone, Copy)]
pub struct Lane {
    pub i: usize,
    pub j: usize,
    pub k: usize,
}

// Where a pair's walks begin, and the sum of the places of their last points; 0, 0, 0 where one is
// empty.
#[derive(Clone, Copy)]
pub struct Pair {
    pub i: usize,
    pub j: usize,
    pub end: usize,
}

// Four pairs, and how many corners stand where two and four lanes put theirs. Lanes have names, and
// not places in an array, for the clauses name each with the buffer that is its own.
#[derive(Clone, Copy)]
pub struct Pairs {
    pub a: Pair,
    pub b: Pair,
    pub c: Pair,
    pub d: Pair,
}

#[derive(Clone, Copy)]
pub struct Two {
    pub a: usize,
    pub b: usize,
}

#[derive(Clone, Copy)]
pub struct Four {
    pub a: usize,
    pub b: usize,
    pub c: usize,
    pub d: usize,
}

// One turn without a corner: the walk with the lesser number steps, and both where the numbers are
// equal.
fn step_on(numbers: &[u64], s: Lane) -> Lane
    requires { (s.i < length numbers.now) × (s.j < length numbers.now) × (s.k + 1 < 2 ^ 64) }
    ensures { let i = left_after numbers.now s.i s.j in
        let j = right_after numbers.now s.i s.j in
        result ≡ record { i = i; j = j; k = s.k + 1 } }
{
    let Lane { i, j, k } = s;
    let a = numbers[i];
    let b = numbers[j];
    Lane {
        i: i + usize::from(a <= b),
        j: j + usize::from(b <= a),
        k: k + 1,
    }
}

// One turn: the corner where the walks stand is put, and they step on.
fn step(points: &[[i32; 2]], numbers: &[u64], s: Lane, out: &mut [i32]) -> Lane
    requires { Buffers points.now numbers.now
        × (s.i < length points.now)
        × (s.j < length points.now)
        × RoomAfter ((corner_in points.now s.i +ᵖ corner_in points.now s.j) ∷ []) out.old s.k }
    ensures places { let i = left_after numbers.now s.i s.j in
        let j = right_after numbers.now s.i s.j in
        result ≡ record { i = i; j = j; k = s.k + 1 } }
    ensures corner { let new = (corner_in points.now s.i +ᵖ corner_in points.now s.j) ∷ [] in
        CornersPut new out.old s.k out.new (s.k + 1) }
{
    pair_merge::put_sum(points, s.i, points, s.j, out, s.k);
    step_on(numbers, s)
}

// Whether a lane has a corner to come.
fn going(s: Lane, end: usize) -> bool
    requires { Low s }
    ensures { result ≡ ltb (s.i + s.j) end }
{
    s.i + s.j < end
}

// A pair's lane at its start, with k corners before it.
fn start(x: Pair, k: usize) -> Lane
    ensures { result ≡ lane_of x k }
{
    Lane { i: x.i, j: x.j, k }
}

// A lane to its end; answers how many corners stand there then.
fn finish(points: &[[i32; 2]], numbers: &[u64], s: Lane, end: usize, out: &mut [i32]) -> usize
    requires { Buffers points.now numbers.now
        × Runs (length points.now) numbers.now end s.i s.j
        × RoomAfter (contour_from points.now numbers.now end s.i s.j) out.old s.k }
    ensures { CornersPut (contour_from points.now numbers.now end s.i s.j) out.old s.k out.new result }
{
    let mut a = s;
    while going(a, end) {
        a = step(points, numbers, a, out);
    }
    a.k
}

// The corners of a pair are put after the first `at`; answers how many stand there then.
pub fn merge_one(points: &[[i32; 2]], numbers: &[u64], x: Pair, out: &mut [i32], at: usize) -> usize
    requires { Buffers points.now numbers.now × Fits points.now numbers.now x out.old at }
    ensures { CornersPut (chain_contour points.now numbers.now x) out.old at out.new result }
{
    finish(points, numbers, start(x, at), x.end, out)
}

// Whether two lanes both have a corner to come.
fn going_two(a: Lane, x: Pair, b: Lane, y: Pair) -> bool
    requires { Low a × Low b }
    ensures { result ≡ both_going a x b y }
{
    going(a, x.end) && going(b, y.end)
}

// The same of two pairs side by side: the second's are put into a work buffer from its front on.
pub fn merge_two(
    points: &[[i32; 2]],
    numbers: &[u64],
    x: Pair,
    y: Pair,
    out: &mut [i32],
    at: usize,
    work: &mut [i32],
) -> Two
    requires { Buffers points.now numbers.now × Fits points.now numbers.now x out.old at × Fits points.now numbers.now y work.old 0 }
    ensures first { CornersPut (chain_contour points.now numbers.now x) out.old at out.new result.a }
    ensures second { CornersPut (chain_contour points.now numbers.now y) work.old 0 work.new result.b }
{
    let mut a = start(x, at);
    let mut b = start(y, 0);
    'lanes: while going_two(a, x, b, y) {
        a = step(points, numbers, a, out);
        b = step(points, numbers, b, work);
    }
    Two {
        a: finish(points, numbers, a, x.end, out),
        b: finish(points, numbers, b, y.end, work),
    }
}

// Whether four lanes all have a corner to come.
fn going_four(a: Lane, b: Lane, c: Lane, d: Lane, x: Pairs) -> bool
    requires { Low a × Low b × Low c × Low d }
    ensures { result ≡ cond (both_going a x.a b x.b) (both_going c x.c d x.d) false }
{
    going_two(a, x.a, b, x.b) && going_two(c, x.c, d, x.d)
}

// The same of four pairs side by side: those of the second, the third and the fourth are put into
// work buffers.
pub fn merge_four(
    points: &[[i32; 2]],
    numbers: &[u64],
    x: Pairs,
    out: &mut [i32],
    at: usize,
    wb: &mut [i32],
    wc: &mut [i32],
    wd: &mut [i32],
) -> Four
    requires { Buffers points.now numbers.now × FourFit points.now numbers.now x out.old at wb.old wc.old wd.old }
    ensures { let p = points.now in
        let n = numbers.now in
        CornersPut (chain_contour p n x.a) out.old at out.new result.a
        × CornersPut (chain_contour p n x.b) wb.old 0 wb.new result.b
        × CornersPut (chain_contour p n x.c) wc.old 0 wc.new result.c
        × CornersPut (chain_contour p n x.d) wd.old 0 wd.new result.d }
{
    let mut a = start(x.a, at);
    let mut b = start(x.b, 0);
    let mut c = start(x.c, 0);
    let mut d = start(x.d, 0);
    'lanes: while going_four(a, b, c, d, x) {
        a = step(points, numbers, a, out);
        b = step(points, numbers, b, wb);
        c = step(points, numbers, c, wc);
        d = step(points, numbers, d, wd);
    }
    Four {
        a: finish(points, numbers, a, x.a.end, out),
        b: finish(points, numbers, b, x.b.end, wb),
        c: finish(points, numbers, c, x.c.end, wc),
        d: finish(points, numbers, d, x.d.end, wd),
    }
}

// How many corners a lane comes to, those before it counted in.
fn count_on(numbers: &[u64], s: Lane, end: usize) -> usize
    requires { (length numbers.now < 2 ^ 32)
        × Runs (length numbers.now) numbers.now end s.i s.j
        × (s.k + length (chain numbers.now end s.i s.j) < 2 ^ 63) }
    ensures { result ≡ s.k + length (chain numbers.now end s.i s.j) }
{
    let mut a = s;
    while going(a, end) {
        a = step_on(numbers, a);
    }
    a.k
}

// How many corners a pair has.
pub fn count_one(numbers: &[u64], x: Pair) -> usize
    requires { Countable numbers.now x }
    ensures { result ≡ length (chain_of numbers.now x) }
{
    count_on(numbers, start(x, 0), x.end)
}

// The same of four pairs side by side.
pub fn count_four(numbers: &[u64], x: Pairs) -> Four
    requires { Countable numbers.now x.a
        × Countable numbers.now x.b
        × Countable numbers.now x.c
        × Countable numbers.now x.d }
    ensures { result ≡ four_lengths numbers.now x }
{
    let mut a = start(x.a, 0);
    let mut b = start(x.b, 0);
    let mut c = start(x.c, 0);
    let mut d = start(x.d, 0);
    'lanes: while going_four(a, b, c, d, x) {
        a = step_on(numbers, a);
        b = step_on(numbers, b);
        c = step_on(numbers, c);
        d = step_on(numbers, d);
    }
    Four {
        a: count_on(numbers, a, x.a.end),
        b: count_on(numbers, b, x.b.end),
        c: count_on(numbers, c, x.c.end),
        d: count_on(numbers, d, x.d.end),
    }
}
