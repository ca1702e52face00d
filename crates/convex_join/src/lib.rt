// Joining triangles into convex parts (advanced/convex.rs, first half): `to_convex_polygons`, with
// no `requires`. Its answer and both lent buffers are those of `PartsAnswered` of
// convex/specs/Joining.antt. The parts are gathered in local buffers, of one of four sizes by the
// mesh's, and handed out once there is room. Leans on mesh_faults, convex_regions and
// convex_gather.
#![tactic(auto)]

ghost use Rattle.std.specs.Prelude.{◌≡◌, ◌*◌, ◌^◌, ◌<◌, ◌≤◌, length};
ghost use Rattle.integers.specs.Faults.{first_fault};
ghost use Rattle.mesh.specs.Mesh.{mesh_kinds};
ghost use Rattle.mesh.specs.Rows.{rows_mesh};
ghost use Rattle.convex_regions.specs.Parts.{tiny};
ghost use Rattle.convex.specs.Joining.{PartsAnswered};

use convex_regions::{MEDIUM, SMALL, TINY};
use mesh::{MAX_TRIANGLES, Row};
use table::Counts;

// Starts and points for the parts of a mesh of each size.
const TINY_STARTS: usize = TINY + 1;

const TINY_POINTS: usize = 3 * TINY;

const SMALL_STARTS: usize = SMALL + 1;

const SMALL_POINTS: usize = 3 * SMALL;

const MEDIUM_STARTS: usize = MEDIUM + 1;

const MEDIUM_POINTS: usize = 3 * MEDIUM;

const LARGE_STARTS: usize = MAX_TRIANGLES + 1;

const LARGE_POINTS: usize = 3 * MAX_TRIANGLES;

// The parts of an accepted mesh, by way of lent buffers that hold those of any mesh of so many
// triangles.
fn join_within(
    mesh: &[Row],
    begins: &mut [u32],
    points: &mut [[i32; 2]],
    starts: &mut [u32],
    corners: &mut [i32],
) -> Counts
    requires { (first_fault (mesh_kinds (rows_mesh mesh.now)) ≡ 0)
        × (length mesh.now < length begins.old)
        × (3 * length mesh.now ≤ length points.old)
        × (length begins.old < 2 ^ 32)
        × (length points.old < 2 ^ 32) }
    ensures { PartsAnswered (rows_mesh mesh.now) starts.old corners.old result starts.new corners.new }
{
    let t = convex_regions::gather(mesh, begins, points);
    convex_gather::hand_out(begins, points, t, starts, corners)
}

// The parts of an accepted mesh, by way of local buffers of STARTS starts and POINTS points.
fn join_in<const STARTS: usize, const POINTS: usize>(
    mesh: &[Row],
    starts: &mut [u32],
    corners: &mut [i32],
) -> Counts
    requires { (first_fault (mesh_kinds (rows_mesh mesh.now)) ≡ 0)
        × (length mesh.now < STARTS)
        × (3 * length mesh.now ≤ POINTS)
        × (STARTS < 2 ^ 32)
        × (POINTS < 2 ^ 32) }
    ensures { PartsAnswered (rows_mesh mesh.now) starts.old corners.old result starts.new corners.new }
{
    let mut begins = [0u32; STARTS];
    let mut points = [[0i32; 2]; POINTS];
    join_within(mesh, &mut begins, &mut points, starts, corners)
}

// The parts of a tiny mesh that is accepted.
pub fn join_tiny(mesh: &[Row], starts: &mut [u32], corners: &mut [i32]) -> Counts
    requires { (length mesh.now ≤ tiny) × (first_fault (mesh_kinds (rows_mesh mesh.now)) ≡ 0) }
    ensures { PartsAnswered (rows_mesh mesh.now) starts.old corners.old result starts.new corners.new }
{
    join_in::<TINY_STARTS, TINY_POINTS>(mesh, starts, corners)
}

// The convex parts of a mesh, joined from its triangles: starts and corners (x, y in turn) on the
// front of the lent buffers. A refusal (1, 2, 3, 4, 5, 6, 11, 22 or 21) gives zero counts and
// changes nothing.
pub fn to_convex_polygons(mesh: &[Row], starts: &mut [u32], corners: &mut [i32]) -> Counts
    ensures { PartsAnswered (rows_mesh mesh.now) starts.old corners.old result starts.new corners.new }
{
    if let Err(fault) = mesh_faults::mesh_fault(mesh) {
        return convex_gather::refusal(fault.number());
    }
    let n = mesh.len();
    if n <= TINY {
        join_tiny(mesh, starts, corners)
    } else if n <= SMALL {
        join_in::<SMALL_STARTS, SMALL_POINTS>(mesh, starts, corners)
    } else if n <= MEDIUM {
        join_in::<MEDIUM_STARTS, MEDIUM_POINTS>(mesh, starts, corners)
    } else {
        join_in::<LARGE_STARTS, LARGE_POINTS>(mesh, starts, corners)
    }
}
