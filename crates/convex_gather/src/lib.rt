// Parts gathered in work buffers are handed out to the lent ones once there is room (`hand_out`,
// which tells 22 and 21 before its first store). What is gathered is said in points' specs/. Leans
// on points, table and corners.
#![tactic(auto)]

ghost use Rattle.std.specs.Prelude.{◌≡◌, ◌+◌, ◌<◌, ◌≤◌, ◌*◌, ◌^◌, length, get_or, set, take};
ghost use Rattle.integers.specs.Lists.{overlay};
ghost use Rattle.corners.specs.Corners.{points_of, numbers_of, with_corner};
ghost use Rattle.points.specs.Points.{corner_in, first_points};
ghost use Rattle.convex_gather.specs.Gather.{HandedOut};

use plane::IntPoint;
use points::Tally;
use table::Counts;

// The first n starts, on the front of the lent ones, one after another: the buffers may lie
// anywhere, and the copy of a slice would ask for memmove.
fn copy_starts(from: &[u32], n: usize, to: &mut [u32])
    requires { (n ≤ length from.now) × (n ≤ length to.old) }
    ensures { to.new ≡ overlay (take n from.now) to.old }
{
    for i in 0..n {
        to[i] = from[i];
    }
}

// Point i as corner i. It is not read by `points::point_at`, which asks for points on the grid.
fn put_point(points: &[[i32; 2]], i: usize, to: &mut [i32])
    requires { (i < length points.now) × (i < length (points_of to.old)) }
    ensures { to.new ≡ with_corner to.old i (corner_in points.now i) }
{
    let [x, y] = points[i];
    corners::put_corner(to, i, IntPoint { x, y });
}

// The first n points as corners, on the front of the lent ones.
fn copy_points(points: &[[i32; 2]], n: usize, to: &mut [i32])
    requires { (n ≤ length points.now) × (n ≤ length (points_of to.old)) }
    ensures { to.new ≡ overlay (numbers_of (first_points n points.now)) to.old }
{
    for i in 0..n {
        put_point(points, i, to);
    }
}

// A refusal: its number and zero counts.
pub fn refusal(fault: u32) -> Counts
    ensures { result ≡ record { fault = fault; parts = 0; corners = 0 } }
{
    Counts {
        fault,
        parts: 0,
        corners: 0,
    }
}

// The parts gathered, on the front of the lent starts and corners (x, y in turn). Refused with 22
// or 21, and nothing changed, where there are too few places.
pub fn hand_out(
    begins: &[u32],
    points: &[[i32; 2]],
    t: Tally,
    starts: &mut [u32],
    corners: &mut [i32],
) -> Counts
    requires { (t.parts < length begins.now) × (t.corners ≤ length points.now) × (length begins.now < 2 ^ 32) × (length points.now < 2 ^ 32) }
    ensures { HandedOut begins.now points.now t starts.old corners.old result starts.new
        corners.new }
{
    let parts = t.parts;
    let count = t.corners;
    if starts.len() < parts + 1 {
        return refusal(integers::fault::START_ROOM);
    }
    if corners::corner_count(corners) < count {
        return refusal(integers::fault::CORNER_ROOM);
    }
    copy_starts(begins, parts + 1, starts);
    copy_points(points, count, corners);
    Counts {
        fault: 0,
        parts: parts as u32,
        corners: count as u32,
    }
}
