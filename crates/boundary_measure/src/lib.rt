// Doubled areas and bounds, exported to C for the package (./package) and the runs beside the judge
// (oracle/beside): one thin function over each call, with no `requires`. The answers are the
// calls', measure/specs/Measured.antt, as they are. Leans on measure.
#![tactic(auto)]

ghost use Rattle.std.specs.Prelude.{◌≡◌};
ghost use Rattle.measure.specs.Measured.{contour_measured, part_measured, table_measured, bounds_told};

use measure::{Bounded, Measured};

// measure::contour_area_two.
#[unsafe(no_mangle)]
pub extern "C" fn bezinkwolu_contour_area_two(contour: &[i32]) -> Measured
    ensures { result ≡ contour_measured contour.now }
{
    measure::contour_area_two(contour)
}

// measure::part_area_two.
#[unsafe(no_mangle)]
pub extern "C" fn bezinkwolu_part_area_two(starts: &[u32], corners: &[i32], k: u32) -> Measured
    ensures { result ≡ part_measured starts.now corners.now k }
{
    measure::part_area_two(starts, corners, k)
}

// measure::table_area_two.
#[unsafe(no_mangle)]
pub extern "C" fn bezinkwolu_table_area_two(starts: &[u32], corners: &[i32]) -> Measured
    ensures { result ≡ table_measured starts.now corners.now }
{
    measure::table_area_two(starts, corners)
}

// measure::table_bounds.
#[unsafe(no_mangle)]
pub extern "C" fn bezinkwolu_table_bounds(starts: &[u32], corners: &[i32]) -> Bounded
    ensures { result ≡ bounds_told starts.now corners.now }
{
    measure::table_bounds(starts, corners)
}
