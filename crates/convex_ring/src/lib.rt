// A region's contour while it grows, in one buffer: pending corners from the front, each with its
// outgoing edge, done corners from the back (specs/Buffers.antt; convex/specs/Zipper.antt says why
// this is the paper's contour). Here it is read: the corners round the edge on top, and whether a
// point joins there (`joins_over`). The buffer is as long as its lender made it. Leans on points,
// plane and convex's definitions.
#![tactic(auto)]

ghost use Rattle.std.specs.Prelude.{◌≡◌, ◌-◌, ◌<◌, length, get_or, set};
ghost use Rattle.plane.specs.Plane.{O};
ghost use Rattle.plane.specs.Machine.{point, OnGrid};
ghost use Rattle.convex.specs.Joining.{joins};
ghost use Rattle.points.specs.Points.{corner_in, pair_of, Grid};
ghost use Rattle.convex_ring.specs.Buffers.{Around, around};

use plane::IntPoint;

// Where a region stands: how many corners are pending, where the done ones begin, and where they
// began when the last corner was put: that corner is done right before that place.
#[derive(Clone, Copy)]
pub struct Progress {
    pub pending: usize,
    pub done: usize,
    pub last: usize,
}

// Whether p, put between a and b, leaves no turn to the right at a and at b; a0 is before a, b0
// after b.
fn joins_at(a0: IntPoint, a: IntPoint, p: IntPoint, b: IntPoint, b0: IntPoint) -> bool
    requires { OnGrid a0 × OnGrid a × OnGrid p × OnGrid b × OnGrid b0 }
    ensures { result ≡ joins (point a0) (point a) (point p) (point b) (point b0) }
{
    plane::cross_product(plane::subtract(a, a0), plane::subtract(p, a)) >= 0
        && plane::cross_product(plane::subtract(b, p), plane::subtract(b0, b)) >= 0
}

// The corner 1 + i places after the top one, round the contour.
fn ring_at(corners: &[[i32; 2]], pending: usize, done: usize, i: usize) -> IntPoint
    requires { Around corners.now pending done × (i < 2) }
    ensures { (point result ≡ get_or (around corners.now pending done) i O) × OnGrid result }
{
    if done + i < corners.len() {
        points::point_at(corners, done + i)
    } else {
        points::point_at(corners, done + i - corners.len())
    }
}

// The corner before the top one, round the contour.
fn ring_end(corners: &[[i32; 2]], pending: usize, done: usize) -> IntPoint
    requires { Around corners.now pending done }
    ensures { (point result ≡ get_or (around corners.now pending done) (length (around corners.now pending done) - 1) O) × OnGrid result }
{
    if pending > 1 {
        points::point_at(corners, pending - 2)
    } else {
        points::point_at(corners, corners.len() - 1)
    }
}

// Whether the point p joins after the top corner.
pub fn joins_over(corners: &[[i32; 2]], p: IntPoint, pending: usize, done: usize) -> bool
    requires { Around corners.now pending done × OnGrid p }
    ensures { result ≡ joins (get_or (around corners.now pending done) (length (around corners.now pending done) - 1) O)
        (corner_in corners.now (pending - 1)) (point p) (get_or (around corners.now pending done) 0 O)
        (get_or (around corners.now pending done) 1 O) }
{
    let a0 = ring_end(corners, pending, done);
    let a = points::point_at(corners, pending - 1);
    let b = ring_at(corners, pending, done, 0);
    let b0 = ring_at(corners, pending, done, 1);
    joins_at(a0, a, p, b, b0)
}
