// Joining over a lent slice of triangle structs: `to_convex_polygons`, with no `requires`, reads
// the rows into a local array of the mesh's size class (triangles) and goes on as over rows, so
// what it answers is said by the same definitions. It is exported to C for the runs beside the Rust
// alone. Leans on triangles, convex_join and convex_gather.
#![tactic(auto)]

ghost use Rattle.std.specs.Prelude.{◌<◌, ◌≤◌, ◌^◌, length, take};
ghost use Rattle.convex.specs.Joining.{PartsAnswered};
ghost use Rattle.triangles.specs.Triangles.{triangles_mesh};

use convex_regions::{SMALL, TINY};
use mesh::MAX_TRIANGLES;
use table::Counts;
use triangles::IntTriangle;

// The parts of a mesh of at most ROWS triangles, by way of a local array of as many rows.
fn join_in<const ROWS: usize>(
    mesh: &[IntTriangle],
    starts: &mut [u32],
    corners: &mut [i32],
) -> Counts
    requires { (length mesh.now ≤ ROWS) × (ROWS < 2 ^ 32) }
    ensures { PartsAnswered (triangles_mesh mesh.now)
        starts.old corners.old result starts.new corners.new }
{
    let rows = triangles::rows_in::<ROWS>(mesh);
    convex_join::to_convex_polygons(&rows[..mesh.len()], starts, corners)
}

// The convex parts of a mesh, joined from its triangles: starts and corners (x, y in turn) on the
// front of the lent buffers. A refusal (1, 2, 3, 4, 5, 6, 11, 22 or 21) gives zero counts and
// changes nothing.
#[unsafe(no_mangle)]
pub extern "C" fn to_convex_polygons(
    mesh: &[IntTriangle],
    starts: &mut [u32],
    corners: &mut [i32],
) -> Counts
    ensures { PartsAnswered (triangles_mesh mesh.now) starts.old corners.old
        result starts.new corners.new }
{
    let n = mesh.len();
    if n <= TINY {
        join_in::<TINY>(mesh, starts, corners)
    } else if n <= SMALL {
        join_in::<SMALL>(mesh, starts, corners)
    } else if n <= MAX_TRIANGLES {
        join_in::<MAX_TRIANGLES>(mesh, starts, corners)
    } else {
        convex_gather::refusal(integers::fault::TRIANGLES)
    }
}
