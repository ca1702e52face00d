// What boundary_split promises, to C.
ghost use Rattle.mesh.specs.Rows.{rows_mesh};
ghost use Rattle.boundary_split.specs.Told.{NumberedAnswered};

use mesh::Row;
use table::Counts;

// split_parts::to_convex_polygons_with_max_vertices. Refuses with 13 before anything else where
// there is no such split.
#[unsafe(no_mangle)]
pub extern "C" fn bezinkwolu_to_convex_polygons_with_max_vertices(
    mesh: &[Row],
    limit: u32,
    split: u32,
    starts: &mut [u32],
    corners: &mut [i32],
) -> Counts
    ensures { NumberedAnswered split limit (rows_mesh mesh.now) starts.old corners.old
        result starts.new corners.new }
{
    boundary_split::bezinkwolu_to_convex_polygons_with_max_vertices(
        mesh, limit, split, starts, corners,
    )
}
