// The numbers of walks' points (direction_keys), by which pairs are merged: `number_walks` writes
// them for all walks of two operands, once, into a lent buffer with a place a point (`Numbered` of
// specs/Numbers.antt). Leans on direction_keys, pair_merge (edges read), pair_walks and plane.
#![tactic(auto)]

ghost use Rattle.std.specs.Prelude.{◌≡◌, ◌+◌, ◌<◌, ◌^◌, length};
ghost use Rattle.points.specs.Points.{Grid};
ghost use Rattle.pair_points.specs.Points.{edge_at};
ghost use Rattle.pair_merge.specs.Putting.{points_in, Mergeable};
ghost use Rattle.direction_keys.specs.Marks.{mark, right_number, SmallEdge};
ghost use Rattle.pair_walks.specs.Walks.{walks_in};
ghost use Rattle.pair_numbers.specs.Numbers.{number_of, NumbersOf, Numberable, NumberedTo};

use std::cmp::Ordering;

// Above the number of any edge: that of the last point.
const LAST: u64 = u64::MAX;

// The key of edge i, doubled.
fn edge_number(a: &[[i32; 2]], i: usize) -> u64
    requires { (i + 1 < length a.now) × Mergeable a.now }
    ensures { (result ≡ right_number (points_in a.now) i) × SmallEdge (edge_at (points_in a.now) i) }
{
    2 * direction_keys::key_of(pair_merge::edge(a, i))
}

// 1 where the edge after edge i comes before it in direction.
fn mark(a: &[[i32; 2]], i: usize) -> u64
    requires { (i + 1 < length a.now) × Grid a.now }
    ensures { result ≡ mark (points_in a.now) i }
{
    if i + 1 + 1 == a.len() {
        return 0;
    }
    let order = plane::angle_cmp(pair_merge::edge(a, i + 1), pair_merge::edge(a, i));
    match order {
        Ordering::Less => 1,
        Ordering::Equal => 0,
        Ordering::Greater => 0,
    }
}

// The number of point i of a walk, of the left operand's where `first`.
fn number_of(a: &[[i32; 2]], i: usize, first: bool) -> u64
    requires { (i < length a.now) × Mergeable a.now }
    ensures { result ≡ number_of first (points_in a.now) i }
{
    if i + 1 == a.len() {
        return LAST;
    }
    let number = edge_number(a, i);
    if first { number - mark(a, i) } else { number }
}

// The numbers of all points of a walk.
fn put_numbers(a: &[[i32; 2]], first: bool, out: &mut [u64])
    requires { Mergeable a.now × (length a.now < 2 ^ 32) × (length out.old ≡ length a.now) }
    ensures { NumbersOf first out.new a.now }
{
    for (i, number) in out.iter_mut().enumerate() {
        *number = number_of(a, i, first);
    }
}

// Those of all walks of two operands, the left one's first: walk n has the points from firsts[n] to
// firsts[n + 1].
pub fn number_walks(
    firsts: &[u32],
    points: &[[i32; 2]],
    left: usize,
    right: usize,
    numbers: &mut [u64],
)
    requires { Numberable firsts.now points.now left right numbers.old }
    ensures size { length numbers.new ≡ length numbers.old }
    ensures numbered { let walks = walks_in firsts.now points.now (left + right) in
        NumberedTo (left + right) walks firsts.now numbers.new left }
{
    for n in 0..left + right {
        let from = firsts[n] as usize;
        let to = firsts[n + 1] as usize;
        put_numbers(&points[from..to], n < left, &mut numbers[from..to]);
    }
}
