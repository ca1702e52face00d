// What triangles_join promises, to C.
ghost use Rattle.convex.specs.Joining.{PartsAnswered};
ghost use Rattle.triangles.specs.Triangles.{triangles_mesh};

use table::Counts;
use triangles::IntTriangle;

// The convex parts of a mesh, joined from its triangles: starts and corners (x, y in turn) on the
// front of the lent buffers. A refusal (1, 2, 3, 4, 5, 6, 11, 22 or 21) gives zero counts and
// changes nothing.
#[unsafe(no_mangle)]
pub extern "C" fn to_convex_polygons(
    mesh: &[IntTriangle],
    starts: &mut [u32],
    corners: &mut [i32],
) -> Counts
    ensures { PartsAnswered (triangles_mesh mesh.now) starts.old corners.old
        result starts.new corners.new }
{
    triangles_join::to_convex_polygons(mesh, starts, corners)
}
