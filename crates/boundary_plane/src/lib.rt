// plane, exported to C for the package (./package) and the runs beside the Rust (oracle/beside):
// one thin function over each function that is compared, on plain numbers, with no `requires`. A
// coordinate not strictly between -2^30 and 2^30 is refused with 2, as document 01 numbers it, and
// the value 0. Leans on plane.
#![tactic(auto)]

ghost use Rattle.std.specs.Prelude.{◌≡◌, [], ◌∷◌};
ghost use Rattle.plane.specs.Machine.{point};
ghost use Rattle.boundary_plane.specs.Told.{all_on, order_number, told_cross, told_area, told_angle};

use plane::IntPoint;
use std::cmp::Ordering;

// The fault number, 0 for none, and the value, 0 where there is a fault.
#[repr(C)]
#[derive(Clone, Copy)]
pub struct Told {
    pub fault: u32,
    pub value: i64,
}

// Whether all three points are on the grid.
#[tactic(auto, unfolding(crate::specs::Told::all_on))]
fn three_on_grid(a: IntPoint, b: IntPoint, c: IntPoint) -> bool
    ensures { result ≡ all_on (point a ∷ point b ∷ point c ∷ []) }
{
    plane::on_grid(a) && plane::on_grid(b) && plane::on_grid(c)
}

// Whether all four points are on the grid.
#[tactic(auto, unfolding(crate::specs::Told::all_on))]
fn four_on_grid(a: IntPoint, b: IntPoint, c: IntPoint, d: IntPoint) -> bool
    ensures { result ≡ all_on (point a ∷ point b ∷ point c ∷ point d ∷ []) }
{
    plane::on_grid(a) && three_on_grid(b, c, d)
}

// A comparison's answer as a number.
fn order_number(o: Ordering) -> i64
    ensures { result ≡ order_number o }
{
    o as i64
}

// (b - a) cross (d - c).
fn cross_of_edges(a: IntPoint, b: IntPoint, c: IntPoint, d: IntPoint) -> Told
    ensures { result ≡ told_cross (point a) (point b) (point c) (point d) }
{
    if four_on_grid(a, b, c, d) {
        return Told {
            fault: 0,
            value: plane::cross_product(plane::subtract(b, a), plane::subtract(d, c)),
        };
    }
    Told {
        fault: integers::fault::RANGE,
        value: 0,
    }
}

// The doubled area of the triangle a b c.
fn area_of_triangle(a: IntPoint, b: IntPoint, c: IntPoint) -> Told
    ensures { result ≡ told_area (point a) (point b) (point c) }
{
    if three_on_grid(a, b, c) {
        return Told {
            fault: 0,
            value: plane::area_two(a, b, c),
        };
    }
    Told {
        fault: integers::fault::RANGE,
        value: 0,
    }
}

// The direction of b - a against that of d - c.
fn angle_of_edges(a: IntPoint, b: IntPoint, c: IntPoint, d: IntPoint) -> Told
    ensures { result ≡ told_angle (point a) (point b) (point c) (point d) }
{
    if four_on_grid(a, b, c, d) {
        let order = plane::angle_cmp(plane::subtract(b, a), plane::subtract(d, c));
        return Told {
            fault: 0,
            value: order_number(order),
        };
    }
    Told {
        fault: integers::fault::RANGE,
        value: 0,
    }
}

// plane::cross_product of b - a and d - c.
#[unsafe(no_mangle)]
pub extern "C" fn bezinkwolu_cross_product(
    ax: i32,
    ay: i32,
    bx: i32,
    by: i32,
    cx: i32,
    cy: i32,
    dx: i32,
    dy: i32,
) -> Told
    ensures { result ≡ told_cross (record { x = ax; y = ay }) (record { x = bx; y = by }) (record { x = cx; y = cy }) (record { x = dx; y = dy }) }
{
    cross_of_edges(
        IntPoint { x: ax, y: ay },
        IntPoint { x: bx, y: by },
        IntPoint { x: cx, y: cy },
        IntPoint { x: dx, y: dy },
    )
}

// plane::area_two of a, b and c.
#[unsafe(no_mangle)]
pub extern "C" fn bezinkwolu_area_two(ax: i32, ay: i32, bx: i32, by: i32, cx: i32, cy: i32) -> Told
    ensures { result ≡ told_area (record { x = ax; y = ay }) (record { x = bx; y = by }) (record { x = cx; y = cy }) }
{
    area_of_triangle(
        IntPoint { x: ax, y: ay },
        IntPoint { x: bx, y: by },
        IntPoint { x: cx, y: cy },
    )
}

// plane::angle_cmp of b - a and d - c: -1 where the first comes before the second, 0 where they are
// level, 1 where it comes after.
#[unsafe(no_mangle)]
pub extern "C" fn bezinkwolu_angle_cmp(
    ax: i32,
    ay: i32,
    bx: i32,
    by: i32,
    cx: i32,
    cy: i32,
    dx: i32,
    dy: i32,
) -> Told
    ensures { result ≡ told_angle (record { x = ax; y = ay }) (record { x = bx; y = by }) (record { x = cx; y = cy }) (record { x = dx; y = dy }) }
{
    angle_of_edges(
        IntPoint { x: ax, y: ay },
        IntPoint { x: bx, y: by },
        IntPoint { x: cx, y: cy },
        IntPoint { x: dx, y: dy },
    )
}
