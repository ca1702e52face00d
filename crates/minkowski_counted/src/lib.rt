// How many corners all pairs of two operands' walks have, by numbers alone (pair_chains):
// `no_room_keyed` and `count_keyed`. A bound on them is lowered pair by pair, four side by side,
// and no further than the question asks. Leans on minkowski_order and pair_chains.
#![tactic(auto)]

ghost use Rattle.std.specs.Prelude.{◌≡◌, ◌+◌, ◌*◌, ◌-◌, ◌<◌, ◌≤◌, ◌^◌, ltb, length};
ghost use Rattle.integers.specs.Lists.{sumℕ};
ghost use Rattle.pair_walks.specs.Walks.{contours_in};
ghost use Rattle.pair_numbers.specs.Numbers.{Keyed};
ghost use Rattle.minkowski_order.specs.Order.{pair_contour_at, Used, More, edges_at, edge_counts};
ghost use Rattle.minkowski_counted.specs.Counts.{four_edges, four_corners, all_corners, Bounds, Lowered, Above};

use minkowski_order::Place;
use pair_chains::Pair;

// How many edges a pair has.
fn edges(x: Pair) -> usize
    requires { x.i + x.j ≤ x.end }
    ensures { result ≡ x.end - (x.i + x.j) }
{
    x.end - x.i - x.j
}

// How many fewer corners than edges it has.
fn ties(x: Pair, corners: usize) -> usize
    requires { (x.i + x.j ≤ x.end) × (corners ≤ x.end - (x.i + x.j)) }
    ensures { result + corners ≡ x.end - (x.i + x.j) }
{
    edges(x) - corners
}

// How many edges all pairs have. The place goes from pair to pair, and is itself the count.
fn most_of(firsts: &[u32], points: &[[i32; 2]], numbers: &[u64], left: usize, right: usize) -> usize
    requires { Used firsts.now points.now numbers.now left right × (left * right < 2 ^ 32) }
    ensures { result ≡ sumℕ (edge_counts firsts.now points.now left right) }
{
    let all = left * right;
    let mut s = Place {
        p: 0,
        q: 0,
        n: 0,
        k: 0,
    };
    while s.n < all {
        let x = minkowski_order::pair_next(firsts, points, numbers, left, right, s);
        let e = edges(x);
        s = minkowski_order::after(s, left, right, s.k + e);
    }
    s.k
}

// The bound on corners once the pair at a place is counted.
fn lower_one(
    firsts: &[u32],
    points: &[[i32; 2]],
    numbers: &[u64],
    left: usize,
    right: usize,
    s: Place,
) -> Place
    requires { Used firsts.now points.now numbers.now left right
        × More left right 1 s
        × (edges_at firsts.now points.now left right s.n ≤ s.k) }
    ensures { let corners = length (pair_contour_at firsts.now points.now left right s.n) in
        let edges = edges_at firsts.now points.now left right s.n in
        Lowered left right 1 corners edges s result }
{
    let x = minkowski_order::pair_next(firsts, points, numbers, left, right, s);
    let c = pair_chains::count_one(numbers, x);
    let t = ties(x, c);
    minkowski_order::after(s, left, right, s.k - t)
}

// The same of the four pairs from a place on.
fn lower_four(
    firsts: &[u32],
    points: &[[i32; 2]],
    numbers: &[u64],
    left: usize,
    right: usize,
    s: Place,
) -> Place
    requires { Used firsts.now points.now numbers.now left right
        × More left right 4 s
        × (four_edges (edge_counts firsts.now points.now left right) s.n ≤ s.k) }
    ensures { let corners = four_corners (contours_in firsts.now points.now left right) s.n in
        let edges = four_edges (edge_counts firsts.now points.now left right) s.n in
        Lowered left right 4 corners edges s result }
{
    let f = minkowski_order::four_next(firsts, points, numbers, left, right, s);
    let x = f.x;
    let c = pair_chains::count_four(numbers, x);
    let a = ties(x.a, c.a);
    let b = ties(x.b, c.b);
    let d = ties(x.c, c.c);
    let e = ties(x.d, c.d);
    let k = s.k - a - b - d - e;
    Place { k, ..f.s }
}

// The bound once pairs are counted, four at a time, but the last few; no more are counted once it
// is within `room`.
fn lower_fours(
    firsts: &[u32],
    points: &[[i32; 2]],
    numbers: &[u64],
    left: usize,
    right: usize,
    room: usize,
) -> Place
    requires { Used firsts.now points.now numbers.now left right × (left * right < 2 ^ 32) }
    ensures { Bounds firsts.now points.now left right result }
{
    let all = left * right;
    let mut s = Place {
        p: 0,
        q: 0,
        n: 0,
        k: most_of(firsts, points, numbers, left, right),
    };
    while s.n + 3 < all && s.k > room {
        s = lower_four(firsts, points, numbers, left, right, s);
    }
    s
}

// A number at least that of all corners, and that number where it is above `room`; of buffers cut
// to the points in use.
fn bound_used(
    firsts: &[u32],
    points: &[[i32; 2]],
    numbers: &[u64],
    left: usize,
    right: usize,
    room: usize,
) -> usize
    requires { Used firsts.now points.now numbers.now left right × (left * right < 2 ^ 32) }
    ensures { Above room (all_corners firsts.now points.now left right) result }
{
    let all = left * right;
    let mut s = lower_fours(firsts, points, numbers, left, right, room);
    while s.n < all && s.k > room {
        s = lower_one(firsts, points, numbers, left, right, s);
    }
    s.k
}

// A number at least that of all corners, and that number where it is above `room`.
fn bound_all(
    firsts: &[u32],
    points: &[[i32; 2]],
    numbers: &[u64],
    left: usize,
    right: usize,
    room: usize,
) -> usize
    requires { Keyed firsts.now points.now numbers.now left right × (left * right < 2 ^ 32) }
    ensures { Above room (all_corners firsts.now points.now left right) result }
{
    let n = minkowski_order::first(firsts, left + right);
    bound_used(firsts, &points[..n], &numbers[..n], left, right, room)
}

// Whether all contours have more corners than `room`; `most` is at least their number, and where
// that is within `room` nothing is counted.
pub fn no_room_keyed(
    firsts: &[u32],
    points: &[[i32; 2]],
    numbers: &[u64],
    left: usize,
    right: usize,
    most: usize,
    room: usize,
) -> bool
    requires { Keyed firsts.now points.now numbers.now left right
        × (left * right < 2 ^ 32)
        × (all_corners firsts.now points.now left right ≤ most) }
    ensures { result ≡ ltb room (all_corners firsts.now points.now left right) }
{
    most > room && room < bound_all(firsts, points, numbers, left, right, room)
}

// How many corners all contours have.
pub fn count_keyed(
    firsts: &[u32],
    points: &[[i32; 2]],
    numbers: &[u64],
    left: usize,
    right: usize,
) -> usize
    requires { Keyed firsts.now points.now numbers.now left right × (left * right < 2 ^ 32) }
    ensures { result ≡ all_corners firsts.now points.now left right }
{
    bound_all(firsts, points, numbers, left, right, 0)
}
