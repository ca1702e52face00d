// The mesh and its parts, exported to C: one thin function over each call, with no `requires` and
// the same contract. The package (./package) and the runs beside the Rust (oracle/beside) link
// these same functions. A mesh is lent as rows of nine numbers. Leans on convex_join and
// mesh_faults.
#![tactic(auto)]

ghost use Rattle.std.specs.Prelude.{◌≡◌};
ghost use Rattle.integers.specs.Faults.{first_fault};
ghost use Rattle.mesh.specs.Mesh.{mesh_kinds};
ghost use Rattle.mesh.specs.Rows.{rows_mesh};
ghost use Rattle.convex.specs.Joining.{PartsAnswered};

use mesh::Row;
use table::Counts;

// mesh_faults::mesh_fault.
#[unsafe(no_mangle)]
pub extern "C" fn bezinkwolu_mesh_fault(mesh: &[Row]) -> u32
    ensures { result ≡ first_fault (mesh_kinds (rows_mesh mesh.now)) }
{
    faults::number_of(mesh_faults::mesh_fault(mesh))
}

// convex_join::to_convex_polygons.
#[unsafe(no_mangle)]
pub extern "C" fn bezinkwolu_to_convex_polygons(
    mesh: &[Row],
    starts: &mut [u32],
    corners: &mut [i32],
) -> Counts
    ensures { PartsAnswered (rows_mesh mesh.now) starts.old corners.old result starts.new corners.new }
{
    convex_join::to_convex_polygons(mesh, starts, corners)
}
