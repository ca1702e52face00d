// A contour's walk unrolled once to points in walk order, the start again at the end (`unroll`):
// repeated points dropped, an in-line point replaced by the next, a reflected walk negated; a
// segment is three points, a point one, an empty contour none. It promises `unrolled` of
// pair_points, or tells that the winding leaves 64 bits (fault 8). Corners are read through corners
// alone. Leans on walk_begin, walk_move, walk_read, corners, plane and points.
#![tactic(auto)]

ghost use Rattle.std.specs.Prelude.{◌≡◌, ◌<◌, length};
ghost use Rattle.plane.specs.Machine.{point, OnGrid};
ghost use Rattle.corners.specs.Corners.{points_of};
ghost use Rattle.points.specs.Points.{corner_in, Appended};
ghost use Rattle.pair_unroll.specs.Unroll.{straight_on, goes_on, Adding, PointAdded, points_from, Walkable, Unrollable, UnrolledBy};

use pair::Place;
use plane::IntPoint;
use std::cmp::Ordering;
use walk::Begun;
use walk_move::point_of;

// Point i.
pub fn point_at(points: &[[i32; 2]], i: usize) -> IntPoint
    requires { i < length points.now }
    ensures { point result ≡ corner_in points.now i }
{
    let c = points[i];
    IntPoint { x: c[0], y: c[1] }
}

// Whether r lies straight on from q after p.
fn straight_on(p: IntPoint, q: IntPoint, r: IntPoint) -> bool
    requires { OnGrid p × OnGrid q × OnGrid r }
    ensures { result ≡ straight_on (point p) (point q) (point r) }
{
    match plane::angle_cmp(plane::subtract(q, p), plane::subtract(r, q)) {
        Ordering::Equal => true,
        Ordering::Less | Ordering::Greater => false,
    }
}

// Whether r lies straight on from the last two of the points `from` .. `count`.
fn goes_on(points: &[[i32; 2]], from: usize, count: usize, r: IntPoint) -> bool
    requires { Adding points.now from count × OnGrid r }
    ensures { result ≡ goes_on points.now from count (point r) }
{
    count - from >= 2 && straight_on(point_at(points, count - 2), point_at(points, count - 1), r)
}

// The point r after the points `from` .. `count`: a repeated one goes, one straight on takes the
// last one's place. Answers the new count.
fn add_point(points: &mut [[i32; 2]], from: usize, count: usize, r: IntPoint) -> usize
    requires { Adding points.old from count × OnGrid r }
    ensures { PointAdded (point r) from points.old count points.new result }
{
    if plane::same_point(point_at(points, count - 1), r) {
        return count;
    }
    if goes_on(points, from, count, r) {
        points::put_point(points, count - 1, r);
        return count;
    }
    points::put_point(points, count, r);
    count + 1
}

// The points of the walk that stands at `start`, after the first `from` points; answers the new
// count.
fn add_walk(contour: &[i32], start: Place, points: &mut [[i32; 2]], from: usize) -> usize
    requires { Walkable contour.now start points.old from }
    ensures { Appended (points_from (points_of contour.now) start) points.old from points.new result }
{
    let n = corners::corner_count(contour);
    points::put_point(points, from, point_of(contour, start));
    let mut w = start;
    let mut count = from + 1;
    while w.remaining > 0 {
        w = walk_move::advance_of(n, w);
        count = add_point(points, from, count, point_of(contour, w));
    }
    count
}

// A contour of sound length and range unrolled after the first `from` points, which have room for
// its corner count and one more. Answers how many points there are now; none where the contour's
// winding leaves 64 bits.
pub fn unroll(
    contour: &[i32],
    reflected: bool,
    points: &mut [[i32; 2]],
    from: usize,
) -> Option<usize>
    requires { Unrollable contour.now points.old from }
    ensures { UnrolledBy reflected (points_of contour.now) points.old from points.new result }
{
    if contour.is_empty() {
        return Some(from);
    }
    match walk_begin::begin_checked(contour, reflected) {
        Begun::At(w) => Some(add_walk(contour, w, points, from)),
        Begun::Refused(_) => None,
    }
}
