// A whole region's contour, from the last corner added and without corners of turn 0, appended to
// the points of the parts before it (`append_contour`). It is run along once, in two stretches of
// the buffer, and each way from corner to corner is computed once. Leans on convex_ring, points and
// plane.
#![tactic(auto)]

ghost use Rattle.std.specs.Prelude.{◌≡◌, ◌+◌, ◌<◌, ◌≤◌, length};
ghost use Rattle.plane.specs.Machine.{point, vector, Short};
ghost use Rattle.convex.specs.Joining.{without_straight};
ghost use Rattle.points.specs.Points.{Appended};
ghost use Rattle.convex_contour.specs.Contour.{contour_at, Whole, place_before, kept_if, bends, between, Runnable, Ran};

use convex_ring::Progress;
use plane::{IntPoint, IntVector};

// What a run along the contour carries on: the corner that is judged next, the way to it from the
// one before, and how many points there are.
#[derive(Clone, Copy)]
pub struct Run {
    pub corner: IntPoint,
    pub way: IntVector,
    pub count: usize,
}

// The place before a place of a whole region's contour, which stands from `done` to the end of a
// buffer of `size` places; round it.
fn place_before(size: usize, done: usize, place: usize) -> usize
    requires { 0 < size }
    ensures { result ≡ place_before size done place }
{
    if place > done { place - 1 } else { size - 1 }
}

// Whether two ways, one after the other, do not go straight on.
fn bends(d: IntVector, e: IntVector) -> bool
    requires { Short d × Short e }
    ensures { result ≡ bends (vector d) (vector e) }
{
    plane::cross_product(d, e) != 0
}

// The corner b, which is reached by the way d and left by the way e, is put after the first count
// points, unless it is straight on; answers the new count.
fn append_corner(
    points: &mut [[i32; 2]],
    count: usize,
    d: IntVector,
    b: IntPoint,
    e: IntVector,
) -> usize
    requires { (count < length points.old) × Short d × Short e }
    ensures { Appended (kept_if (bends (vector d) (vector e)) (point b)) points.old count points.new result }
{
    if bends(d, e) {
        points::put_point(points, count, b);
        count + 1
    } else {
        count
    }
}

// The corners at the places from `from` to before `to` come after the run's corner: each is judged
// where the next one is read.
fn append_run(corners: &[[i32; 2]], from: usize, to: usize, points: &mut [[i32; 2]], r: Run) -> Run
    requires { Runnable corners.now from to points.old r }
    ensures { Ran (between corners.now from to) points.old r points.new result }
{
    let mut t = r;
    for i in from..to {
        let c = points::point_at(corners, i);
        let way = plane::subtract(c, t.corner);
        let count = append_corner(points, t.count, t.way, t.corner, way);
        t = Run {
            corner: c,
            way,
            count,
        };
    }
    t
}

// A whole region's contour without corners of turn 0 is put after the first `from` points; answers
// the new count.
pub fn append_contour(
    corners: &[[i32; 2]],
    p: Progress,
    points: &mut [[i32; 2]],
    from: usize,
) -> usize
    requires { Whole corners.now p × (from + length corners.now ≤ length points.old + p.done) }
    ensures { Appended (without_straight (contour_at corners.now p)) points.old from points.new result }
{
    let end = corners.len();
    let last = p.last - 1;
    let a = points::point_at(corners, place_before(end, p.done, last));
    let b = points::point_at(corners, last);
    let r = Run {
        corner: b,
        way: plane::subtract(b, a),
        count: from,
    };
    let t = append_run(corners, p.last, end, points, r);
    let u = append_run(corners, p.done, p.last, points, t);
    u.count
}
