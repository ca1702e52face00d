// Points, vectors and directions of the plane: what iTriangle takes of i_float, and `angle_cmp` of
// int/minkowski_sum.rs. Each function equals its definition in specs/Plane.antt on coordinates
// strictly between -2^30 and 2^30 (an inner layer: the entry points above have refused all others),
// and says how large its result can be. Leans on integers.
#![tactic(auto)]

ghost use Rattle.std.specs.Prelude.{◌≡◌, ◌-ℤ◌, ◌*ℤ◌};
ghost use Rattle.plane.specs.Plane.{in_range, on_grid, eq_pt, cross, area_two, lower, is_zero, by_cross, angle_cmp, ◌-ᵖ◌};
ghost use Rattle.plane.specs.Machine.{Coordinate, Extent, CrossSize, OnGrid, Short, point, vector};

use std::cmp::Ordering;

// A point of the integer grid.
#[repr(C)]
#[derive(Clone, Copy, Debug, PartialEq, Eq)]
pub struct IntPoint {
    pub x: i32,
    pub y: i32,
}

// The difference of two points, in the Rust's wide number.
#[derive(Clone, Copy, Debug, PartialEq, Eq)]
pub struct IntVector {
    pub x: i64,
    pub y: i64,
}

// Document 01's fault 2: a coordinate is strictly between -2^30 and 2^30.
pub const LIMIT: i32 = 1073741824;

// Whether a coordinate is strictly between the limits.
pub fn in_range(z: i32) -> bool
    ensures { result ≡ in_range z }
{
    -LIMIT < z && z < LIMIT
}

// Whether both coordinates of a point are.
pub fn on_grid(p: IntPoint) -> bool
    ensures { result ≡ on_grid (point p) }
{
    in_range(p.x) && in_range(p.y)
}

// One coordinate less another, widened.
pub fn difference(a: i32, b: i32) -> i64
    requires { Coordinate a × Coordinate b }
    ensures { (result ≡ a -ℤ b) × Extent result }
{
    (a - b) as i64
}

// a - b.
pub fn subtract(a: IntPoint, b: IntPoint) -> IntVector
    requires { OnGrid a × OnGrid b }
    ensures { (vector result ≡ point a -ᵖ point b) × Short result }
{
    IntVector {
        x: difference(a.x, b.x),
        y: difference(a.y, b.y),
    }
}

// ax * by - ay * bx.
pub fn cross_of(ax: i64, ay: i64, bx: i64, by: i64) -> i64
    requires { Extent ax × Extent ay × Extent bx × Extent by }
    ensures { (result ≡ ax *ℤ by -ℤ ay *ℤ bx) × CrossSize result }
{
    ax * by - ay * bx
}

// The cross product of two vectors.
pub fn cross_product(a: IntVector, b: IntVector) -> i64
    requires { Short a × Short b }
    ensures { (result ≡ cross (vector a) (vector b)) × CrossSize result }
{
    cross_of(a.x, a.y, b.x, b.y)
}

// The doubled area of the triangle a b c, above 0 where it runs counter-clockwise.
pub fn area_two(a: IntPoint, b: IntPoint, c: IntPoint) -> i64
    requires { OnGrid a × OnGrid b × OnGrid c }
    ensures { (result ≡ area_two (point a) (point b) (point c)) × CrossSize result }
{
    cross_product(subtract(b, a), subtract(c, a))
}

// Whether two points are one.
pub fn same_point(a: IntPoint, b: IntPoint) -> bool
    ensures { result ≡ eq_pt (point a) (point b) }
{
    a == b
}

// Whether v is the zero vector.
#[tactic(auto, unfolding(crate::specs::Plane::is_zero))]
pub fn is_zero(v: IntVector) -> bool
    ensures { result ≡ is_zero (vector v) }
{
    v == IntVector { x: 0, y: 0 }
}

// Whether v points below, or straight to the left.
pub fn lower(v: IntVector) -> bool
    ensures { result ≡ lower (vector v) }
{
    v.y < 0 || v.y == 0 && v.x < 0
}

// Before, beside or after, by the sign of a cross product: a positive one is before.
#[tactic(auto, unfolding(crate::specs::Plane::by_cross))]
pub fn by_cross(k: i64) -> Ordering
    ensures { result ≡ by_cross k }
{
    0.cmp(&k)
}

// The direction of a against that of b, from angle 0 up to a full turn.
#[tactic(auto, unfolding(crate::specs::Plane::angle_cmp))]
pub fn angle_cmp(a: IntVector, b: IntVector) -> Ordering
    requires { Short a × Short b }
    ensures { result ≡ angle_cmp (vector a) (vector b) }
{
    match (lower(a), lower(b)) {
        (true, false) => Ordering::Greater,
        (false, true) => Ordering::Less,
        _ => by_cross(cross_product(a, b)),
    }
}
