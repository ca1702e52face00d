// What boundary_place promises, to C.
ghost use Rattle.std.specs.Prelude.{◌≡◌};
ghost use Rattle.placement.specs.Placement.{placed_of};
ghost use Rattle.boundary_place.specs.Told.{told_placed};

use boundary_place::ToldPlacement;

// placement::placement.
#[unsafe(no_mangle)]
pub extern "C" fn bezinkwolu_placement(
    starts: &[u32],
    corners: &[i32],
    x: i32,
    y: i32,
) -> ToldPlacement
    ensures { result ≡ told_placed (placed_of starts.now corners.now (record { x = x; y = y })) }
{
    boundary_place::bezinkwolu_placement(starts, corners, x, y)
}
