// What boundary_mesh promises, to C.
ghost use Rattle.std.specs.Prelude.{◌≡◌};
ghost use Rattle.integers.specs.Faults.{first_fault};
ghost use Rattle.mesh.specs.Mesh.{mesh_kinds};
ghost use Rattle.mesh.specs.Rows.{rows_mesh};
ghost use Rattle.convex.specs.Joining.{PartsAnswered};

use mesh::Row;
use table::Counts;

// mesh_faults::mesh_fault.
#[unsafe(no_mangle)]
pub extern "C" fn bezinkwolu_mesh_fault(mesh: &[Row]) -> u32
    ensures { result ≡ first_fault (mesh_kinds (rows_mesh mesh.now)) }
{
    boundary_mesh::bezinkwolu_mesh_fault(mesh)
}

// convex_join::to_convex_polygons.
#[unsafe(no_mangle)]
pub extern "C" fn bezinkwolu_to_convex_polygons(
    mesh: &[Row],
    starts: &mut [u32],
    corners: &mut [i32],
) -> Counts
    ensures { PartsAnswered (rows_mesh mesh.now) starts.old corners.old result starts.new corners.new }
{
    boundary_mesh::bezinkwolu_to_convex_polygons(mesh, starts, corners)
}
