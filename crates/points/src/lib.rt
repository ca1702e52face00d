// Points gathered in work buffers, one part after another: a point read, a point put, a start put.
// What is gathered is said in specs/: Points (the points of a buffer, and points appended),
// Gathered (parts with their starts); their laws in proofs/. Joining, splitting and pairs lean on
// it. It leans on table (starts of parts), plane and integers.
#![tactic(auto)]

ghost use Rattle.std.specs.Prelude.{◌≡◌, ◌<◌, ◌^◌, length, set};
ghost use Rattle.plane.specs.Machine.{point, OnGrid};
ghost use Rattle.points.specs.Points.{corner_in, pair_of, Grid};

use plane::IntPoint;

// How many parts and corners are gathered.
#[derive(Clone, Copy)]
pub struct Tally {
    pub parts: usize,
    pub corners: usize,
}

// The point at i.
pub fn point_at(points: &[[i32; 2]], i: usize) -> IntPoint
    requires { (i < length points.now) × Grid points.now }
    ensures { (point result ≡ corner_in points.now i) × OnGrid result }
{
    let c = points[i];
    IntPoint { x: c[0], y: c[1] }
}

// The point p at i.
pub fn put_point(points: &mut [[i32; 2]], i: usize, p: IntPoint)
    requires { i < length points.old }
    ensures { points.new ≡ set points.old i (pair_of (point p)) }
{
    points[i] = [p.x, p.y];
}

// Start i.
pub fn put_start(starts: &mut [u32], i: usize, n: usize)
    requires { (i < length starts.old) × (n < 2 ^ 32) }
    ensures { starts.new ≡ set starts.old i n }
{
    starts[i] = n as u32;
}
