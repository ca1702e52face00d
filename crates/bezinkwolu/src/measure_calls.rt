// What boundary_measure promises, to C.
ghost use Rattle.std.specs.Prelude.{◌≡◌};
ghost use Rattle.measure.specs.Measured.{contour_measured, part_measured, table_measured, bounds_told};

use measure::{Bounded, Measured};

// measure::contour_area_two.
#[unsafe(no_mangle)]
pub extern "C" fn bezinkwolu_contour_area_two(contour: &[i32]) -> Measured
    ensures { result ≡ contour_measured contour.now }
{
    boundary_measure::bezinkwolu_contour_area_two(contour)
}

// measure::part_area_two.
#[unsafe(no_mangle)]
pub extern "C" fn bezinkwolu_part_area_two(starts: &[u32], corners: &[i32], k: u32) -> Measured
    ensures { result ≡ part_measured starts.now corners.now k }
{
    boundary_measure::bezinkwolu_part_area_two(starts, corners, k)
}

// measure::table_area_two.
#[unsafe(no_mangle)]
pub extern "C" fn bezinkwolu_table_area_two(starts: &[u32], corners: &[i32]) -> Measured
    ensures { result ≡ table_measured starts.now corners.now }
{
    boundary_measure::bezinkwolu_table_area_two(starts, corners)
}

// measure::table_bounds.
#[unsafe(no_mangle)]
pub extern "C" fn bezinkwolu_table_bounds(starts: &[u32], corners: &[i32]) -> Bounded
    ensures { result ≡ bounds_told starts.now corners.now }
{
    boundary_measure::bezinkwolu_table_bounds(starts, corners)
}
