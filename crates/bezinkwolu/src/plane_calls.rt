// What boundary_plane promises, to C.
ghost use Rattle.std.specs.Prelude.{◌≡◌};
ghost use Rattle.boundary_plane.specs.Told.{told_cross, told_area, told_angle};

use boundary_plane::Told;

// plane::cross_product of b - a and d - c.
#[unsafe(no_mangle)]
pub extern "C" fn bezinkwolu_cross_product(
    ax: i32,
    ay: i32,
    bx: i32,
    by: i32,
    cx: i32,
    cy: i32,
    dx: i32,
    dy: i32,
) -> Told
    ensures { result ≡ told_cross (record { x = ax; y = ay }) (record { x = bx; y = by }) (record { x = cx; y = cy }) (record { x = dx; y = dy }) }
{
    boundary_plane::bezinkwolu_cross_product(ax, ay, bx, by, cx, cy, dx, dy)
}

// plane::area_two of a, b and c.
#[unsafe(no_mangle)]
pub extern "C" fn bezinkwolu_area_two(ax: i32, ay: i32, bx: i32, by: i32, cx: i32, cy: i32) -> Told
    ensures { result ≡ told_area (record { x = ax; y = ay }) (record { x = bx; y = by }) (record { x = cx; y = cy }) }
{
    boundary_plane::bezinkwolu_area_two(ax, ay, bx, by, cx, cy)
}

// plane::angle_cmp of b - a and d - c: -1 where the first comes before the second, 0 where they are
// level, 1 where it comes after.
#[unsafe(no_mangle)]
pub extern "C" fn bezinkwolu_angle_cmp(
    ax: i32,
    ay: i32,
    bx: i32,
    by: i32,
    cx: i32,
    cy: i32,
    dx: i32,
    dy: i32,
) -> Told
    ensures { result ≡ told_angle (record { x = ax; y = ay }) (record { x = bx; y = by }) (record { x = cx; y = cy }) (record { x = dx; y = dy }) }
{
    boundary_plane::bezinkwolu_angle_cmp(ax, ay, bx, by, cx, cy, dx, dy)
}
