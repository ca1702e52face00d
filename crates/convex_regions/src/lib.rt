// The parts of an accepted mesh, gathered region after region (advanced/convex.rs, the outer loop):
// `gather`, into buffers that its caller lends. The work arrays of a region are as large as the
// mesh asks for, in four sizes, so that a small mesh does not wait for the filling of large ones.
// What is gathered is said in specs/Parts.antt. Leans on convex_grow, convex_contour and
// convex_gather.
#![tactic(auto)]

ghost use Rattle.std.specs.Prelude.{◌≡◌, false, [], ◌+◌, ◌<◌, ◌≤◌, ◌*◌, ◌^◌, length, get_or};
ghost use Rattle.integers.specs.Faults.{first_fault};
ghost use Rattle.mesh.specs.Mesh.{max_triangles, mesh_kinds};
ghost use Rattle.mesh.specs.Rows.{rows_mesh};
ghost use Rattle.convex.specs.Joining.{parts};
ghost use Rattle.convex_ring.specs.Buffers.{Marked, RegionBuffers};
ghost use Rattle.points.specs.Gathered.{Gathered};
ghost use Rattle.convex_regions.specs.Parts.{Fresh, Room, Joined, Visited};

use mesh::{MAX_TRIANGLES, Row};
use points::Tally;

// A mesh of at most so many triangles is tiny, small, or medium; `large` is any that is accepted.
pub const TINY: usize = 16;

pub const SMALL: usize = 128;

pub const MEDIUM: usize = 512;

// Places for the corners and edges of a region of a mesh of each size.
const TINY_PLACES: usize = TINY + 2;

const SMALL_PLACES: usize = SMALL + 2;

const MEDIUM_PLACES: usize = MEDIUM + 2;

const LARGE_PLACES: usize = MAX_TRIANGLES + 2;

// The region that starts with triangle k, which is not taken, is gathered.
fn append_region(
    mesh: &[Row],
    corners: &mut [[i32; 2]],
    edges: &mut [[usize; 2]],
    taken: &mut [bool],
    starts: &mut [u32],
    points: &mut [[i32; 2]],
    k: usize,
    t: Tally,
) -> Tally
    requires { RegionBuffers (length corners.old) (rows_mesh mesh.now) corners.old edges.old taken.old
        × (k < length mesh.now)
        × (get_or taken.old k false ≡ false)
        × Room (rows_mesh mesh.now) taken.old starts.old points.old t }
    ensures { Joined (length corners.old) (rows_mesh mesh.now) k taken.old starts.old
        points.old t corners.new edges.new taken.new starts.new points.new result }
{
    let p = convex_grow::grow(mesh, corners, edges, taken, k);
    let count = convex_contour::append_contour(corners, p, points, t.corners);
    let parts = t.parts + 1;
    points::put_start(starts, parts, count);
    Tally {
        parts,
        corners: count,
    }
}

// Triangle k starts a region, unless it is taken.
fn visit(
    mesh: &[Row],
    corners: &mut [[i32; 2]],
    edges: &mut [[usize; 2]],
    taken: &mut [bool],
    starts: &mut [u32],
    points: &mut [[i32; 2]],
    k: usize,
    t: Tally,
) -> Tally
    requires { RegionBuffers (length corners.old) (rows_mesh mesh.now) corners.old edges.old taken.old
        × (k < length mesh.now)
        × Room (rows_mesh mesh.now) taken.old starts.old points.old t }
    ensures { Visited (length corners.old) (rows_mesh mesh.now) k taken.old starts.old
        points.old t corners.new edges.new taken.new starts.new points.new result }
{
    if taken[k] {
        t
    } else {
        append_region(mesh, corners, edges, taken, starts, points, k, t)
    }
}

// Unvisited triangles start regions in table order.
fn visit_all(
    mesh: &[Row],
    corners: &mut [[i32; 2]],
    edges: &mut [[usize; 2]],
    taken: &mut [bool],
    starts: &mut [u32],
    points: &mut [[i32; 2]],
) -> Tally
    requires { RegionBuffers (length corners.old) (rows_mesh mesh.now) corners.old edges.old taken.old
        × Marked taken.old []
        × (length mesh.now < length starts.old)
        × (3 * length mesh.now ≤ length points.old)
        × (get_or starts.old 0 0 ≡ 0) }
    ensures { Gathered starts.new points.new result (parts (rows_mesh mesh.now))
        × (result.parts ≤ length mesh.now)
        × (result.corners ≤ 3 * length mesh.now) }
{
    let mut t = Tally {
        parts: 0,
        corners: 0,
    };
    for k in 0..mesh.len() {
        t = visit(mesh, corners, edges, taken, starts, points, k, t);
    }
    t
}

// The parts of an accepted mesh, by way of lent work arrays that serve any mesh of so many
// triangles.
fn gather_within(
    mesh: &[Row],
    corners: &mut [[i32; 2]],
    edges: &mut [[usize; 2]],
    taken: &mut [bool],
    starts: &mut [u32],
    points: &mut [[i32; 2]],
) -> Tally
    requires { (first_fault (mesh_kinds (rows_mesh mesh.now)) ≡ 0)
        × Fresh (length mesh.now) corners.old edges.old taken.old
        × (length mesh.now < length starts.old)
        × (3 * length mesh.now ≤ length points.old) }
    ensures { Gathered starts.new points.new result (parts (rows_mesh mesh.now))
        × (result.parts ≤ length mesh.now)
        × (result.corners ≤ 3 * length mesh.now) }
{
    let n = mesh.len();
    points::put_start(starts, 0, 0);
    visit_all(mesh, corners, edges, &mut taken[..n], starts, points)
}

// The parts of an accepted mesh of at most MARKS triangles, by way of work arrays of its own: a
// mark for each, and two places more for corners.
fn gather_in<const MARKS: usize, const PLACES: usize>(
    mesh: &[Row],
    starts: &mut [u32],
    points: &mut [[i32; 2]],
) -> Tally
    requires { (length mesh.now ≤ MARKS)
        × (length mesh.now + 2 ≤ PLACES)
        × (MARKS < 2 ^ 32)
        × (PLACES < 2 ^ 32)
        × (first_fault (mesh_kinds (rows_mesh mesh.now)) ≡ 0)
        × (length mesh.now < length starts.old)
        × (3 * length mesh.now ≤ length points.old) }
    ensures { Gathered starts.new points.new result (parts (rows_mesh mesh.now))
        × (result.parts ≤ length mesh.now)
        × (result.corners ≤ 3 * length mesh.now) }
{
    let mut corners = [[0i32; 2]; PLACES];
    let mut edges = [[0usize; 2]; PLACES];
    let mut taken = [false; MARKS];
    gather_within(mesh, &mut corners, &mut edges, &mut taken, starts, points)
}

// The parts of an accepted mesh, in buffers with a place for a start more than it has triangles,
// and three times as many for corners.
pub fn gather(mesh: &[Row], starts: &mut [u32], points: &mut [[i32; 2]]) -> Tally
    requires { (length mesh.now ≤ max_triangles)
        × (first_fault (mesh_kinds (rows_mesh mesh.now)) ≡ 0)
        × (length mesh.now < length starts.old)
        × (3 * length mesh.now ≤ length points.old) }
    ensures { Gathered starts.new points.new result (parts (rows_mesh mesh.now))
        × (result.parts ≤ length mesh.now)
        × (result.corners ≤ 3 * length mesh.now) }
{
    let n = mesh.len();
    if n <= TINY {
        gather_in::<TINY, TINY_PLACES>(mesh, starts, points)
    } else if n <= SMALL {
        gather_in::<SMALL, SMALL_PLACES>(mesh, starts, points)
    } else if n <= MEDIUM {
        gather_in::<MEDIUM, MEDIUM_PLACES>(mesh, starts, points)
    } else {
        gather_in::<MAX_TRIANGLES, LARGE_PLACES>(mesh, starts, points)
    }
}
