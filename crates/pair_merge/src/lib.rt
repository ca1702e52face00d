// Two unrolled walks merged (the Rust's `ConvexSum` from its first step to its last; pair_points
// has the definitions): `append_pair` puts the corners of `merged_of` into lent numbers after those
// put before, a corner a turn, and answers how many stand there then. By the law `pair-merged` they
// are the pair's contour. Leans on pair_points, points (points read) and plane.
#![tactic(auto)]

ghost use Rattle.std.specs.Prelude.{◌≡◌, ◌∷◌, [], ◌⊎◌, ◌+◌, ◌<◌, length, drop};
ghost use Rattle.plane.specs.Plane.{◌+ᵖ◌, angle_cmp};
ghost use Rattle.plane.specs.Machine.{vector, Short};
ghost use Rattle.points.specs.Points.{corner_in, Grid};
ghost use Rattle.pair_points.specs.Points.{edges_along, merged_of, second_next, rest_of, edge_at};
ghost use Rattle.pair_merge.specs.Putting.{points_in, Mergeable, RoomAfter, CornersPut, Reached};

use plane::{IntPoint, IntVector};
use std::cmp::Ordering;

// Where a merge stands once one list has no edge left: a point of each, and how many corners are
// put.
#[derive(Clone, Copy)]
pub struct Halt {
    pub i: usize,
    pub j: usize,
    pub k: usize,
}

// The sum of point i of a and point j of b is put as corner k.
pub fn put_sum(a: &[[i32; 2]], i: usize, b: &[[i32; 2]], j: usize, out: &mut [i32], k: usize)
    requires { (i < length a.now)
        × Grid a.now
        × (j < length b.now)
        × Grid b.now
        × RoomAfter ((corner_in a.now i +ᵖ corner_in b.now j) ∷ []) out.old k }
    ensures { CornersPut ((corner_in a.now i +ᵖ corner_in b.now j) ∷ []) out.old k out.new (k + 1) }
{
    let p = points::point_at(a, i);
    let q = points::point_at(b, j);
    let s = IntPoint {
        x: p.x + q.x,
        y: p.y + q.y,
    };
    corners::put_corner(out, k, s);
}

// From point i to the next.
pub fn edge(a: &[[i32; 2]], i: usize) -> IntVector
    requires { (i + 1 < length a.now) × Grid a.now }
    ensures { (vector result ≡ edge_at (points_in a.now) i) × Short result }
{
    plane::subtract(points::point_at(a, i + 1), points::point_at(a, i))
}

// The direction of a's edge i against that of b's edge j.
fn edge_cmp(a: &[[i32; 2]], i: usize, b: &[[i32; 2]], j: usize) -> Ordering
    requires { (i + 1 < length a.now) × Grid a.now × (j + 1 < length b.now) × Grid b.now }
    ensures { result ≡ angle_cmp (edge_at (points_in a.now) i) (edge_at (points_in b.now) j) }
{
    plane::angle_cmp(edge(a, i), edge(b, j))
}

// After a tie: whether b's edge j steps before a's edge i.
fn second_next(a: &[[i32; 2]], i: usize, b: &[[i32; 2]], j: usize) -> bool
    requires { (i < length a.now) × Grid a.now × (j + 1 < length b.now) × Grid b.now }
    ensures { result ≡ second_next (edges_along (drop i (points_in a.now))) (edge_at (points_in b.now) j) }
{
    if i + 1 == a.len() {
        return true;
    }
    let order = edge_cmp(a, i, b, j);
    match order {
        Ordering::Greater => true,
        Ordering::Less => false,
        Ordering::Equal => false,
    }
}

// The corners up to where one list has no edge left.
fn merge(a: &[[i32; 2]], b: &[[i32; 2]], out: &mut [i32], at: usize) -> Halt
    requires { (0 < length a.now)
        × Mergeable a.now
        × (0 < length b.now)
        × Mergeable b.now
        × RoomAfter (merged_of (points_in a.now) (points_in b.now)) out.old at }
    ensures places { (result.i < length a.now)
        × (result.j < length b.now)
        × ((result.i + 1 ≡ length a.now) ⊎ (result.j + 1 ≡ length b.now)) }
    ensures corners { let left = points_in a.now in
        let right = points_in b.now in
        let rest = merged_of (drop result.i left) (drop result.j right) in
        Reached (merged_of left right) rest out.old at out.new result.k }
{
    let n = a.len() - 1;
    let m = b.len() - 1;
    let mut i: usize = 0;
    let mut j: usize = 0;
    let mut k = at;
    while i < n && j < m {
        put_sum(a, i, b, j, out, k);
        k += 1;
        let order = edge_cmp(a, i, b, j);
        match order {
            Ordering::Less => {
                i += 1;
            }
            Ordering::Greater => {
                j += 1;
            }
            Ordering::Equal => {
                i += 1;
                if second_next(a, i, b, j) {
                    j += 1;
                }
            }
        }
    }
    Halt { i, j, k }
}

// The corners of a's points from i on, but the last, at b's point j.
fn rest(a: &[[i32; 2]], i: usize, b: &[[i32; 2]], j: usize, out: &mut [i32], at: usize) -> usize
    requires { (i < length a.now)
        × Grid a.now
        × (j < length b.now)
        × Grid b.now
        × RoomAfter (rest_of (corner_in b.now j) (drop i (points_in a.now))) out.old at }
    ensures { CornersPut (rest_of (corner_in b.now j) (drop i (points_in a.now))) out.old at out.new result }
{
    let mut k = at;
    for p in i..a.len() - 1 {
        put_sum(a, p, b, j, out, k);
        k += 1;
    }
    k
}

// The corners of two walks merged are put after the first `at`; answers how many stand there then.
pub fn append_pair(a: &[[i32; 2]], b: &[[i32; 2]], out: &mut [i32], at: usize) -> usize
    requires { Mergeable a.now × Mergeable b.now × RoomAfter (merged_of (points_in a.now) (points_in b.now)) out.old at }
    ensures { CornersPut (merged_of (points_in a.now) (points_in b.now)) out.old at out.new result }
{
    if a.is_empty() || b.is_empty() {
        return at;
    }
    let Halt { i, j, k } = merge(a, b, out, at);
    let k = rest(a, i, b, j, out, k);
    rest(b, j, a, a.len() - 1, out, k)
}
