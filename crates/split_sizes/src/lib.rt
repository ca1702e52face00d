// The parts of an accepted mesh, split past a corner limit in work arrays of its size: the joined
// parts are gathered, each is split into further arrays, and all are handed out once there is room.
// There are four sizes, so that a small mesh does not wait for the filling of large arrays; each
// answers as `SplitAnswered` of split/specs/Splitting.antt says. Leans on convex_regions,
// split_contour and convex_gather.
#![tactic(auto)]

ghost use Rattle.std.specs.Prelude.{◌≡◌, ◌+◌, ◌<◌, ◌≤◌, ◌^◌, length, get_or, []};
ghost use Rattle.integers.specs.Faults.{first_fault};
ghost use Rattle.mesh.specs.Mesh.{mesh_kinds};
ghost use Rattle.mesh.specs.Rows.{rows_mesh};
ghost use Rattle.convex_regions.specs.Parts.{tiny};
ghost use Rattle.split.specs.Splitting.{split_contour, SplitAnswered};
ghost use Rattle.points.specs.Gathered.{Gathered, RoomFor, PartsAppended};
ghost use Rattle.split_sizes.specs.Parts.{parts_in, Splittable, split_each, WorkRoom};

use convex_regions::{MEDIUM, SMALL, TINY};
use mesh::{MAX_TRIANGLES, Row};
use points::Tally;
use split::ConvexSplitStrategy;
use table::Counts;

// Places in the work arrays of each size: as many as `WorkRoom` asks for.
const TINY_BEGINS: usize = TINY + 1;

const TINY_JOINED: usize = 3 * TINY;

const TINY_SPLIT_BEGINS: usize = 2 * TINY + 1;

const TINY_POINTS: usize = 6 * TINY;

const SMALL_BEGINS: usize = SMALL + 1;

const SMALL_JOINED: usize = 3 * SMALL;

const SMALL_SPLIT_BEGINS: usize = 2 * SMALL + 1;

const SMALL_POINTS: usize = 6 * SMALL;

const MEDIUM_BEGINS: usize = MEDIUM + 1;

const MEDIUM_JOINED: usize = 3 * MEDIUM;

const MEDIUM_SPLIT_BEGINS: usize = 2 * MEDIUM + 1;

const MEDIUM_POINTS: usize = 6 * MEDIUM;

const LARGE_BEGINS: usize = MAX_TRIANGLES + 1;

const LARGE_JOINED: usize = 3 * MAX_TRIANGLES;

const LARGE_SPLIT_BEGINS: usize = 2 * MAX_TRIANGLES + 1;

const LARGE_POINTS: usize = 6 * MAX_TRIANGLES;

// The parts of joined part k are appended.
fn append_part(
    begins: &[u32],
    joined: &[[i32; 2]],
    u: Tally,
    k: usize,
    limit: usize,
    strategy: ConvexSplitStrategy,
    starts: &mut [u32],
    points: &mut [[i32; 2]],
    t: Tally,
) -> Tally
    requires { Splittable begins.now joined.now u
        × (k < u.parts)
        × (3 ≤ limit)
        × RoomFor starts.old points.old t (split_contour strategy limit (get_or (parts_in begins.now joined.now u) k [])) }
    ensures { PartsAppended (split_contour strategy limit (get_or (parts_in begins.now joined.now u) k [])) starts.old
        points.old t starts.new points.new result }
{
    let from = begins[k] as usize;
    let to = begins[k + 1] as usize;
    split_contour::append_split(&joined[from..to], limit, strategy, starts, points, t)
}

// The parts of every joined part, in buffers that hold those of any mesh.
fn split_all(
    begins: &[u32],
    joined: &[[i32; 2]],
    u: Tally,
    limit: usize,
    strategy: ConvexSplitStrategy,
    starts: &mut [u32],
    points: &mut [[i32; 2]],
) -> Tally
    requires { Splittable begins.now joined.now u
        × (3 ≤ limit)
        × RoomFor starts.old points.old (record { parts = 0; corners = 0 }) (split_each strategy limit (parts_in begins.now joined.now u)) }
    ensures { Gathered starts.new points.new result (split_each strategy limit (parts_in begins.now joined.now u)) }
{
    points::put_start(starts, 0, 0);
    let mut t = Tally {
        parts: 0,
        corners: 0,
    };
    for k in 0..u.parts {
        t = append_part(begins, joined, u, k, limit, strategy, starts, points, t);
    }
    t
}

// The parts of an accepted mesh, by way of lent work arrays that hold those of any mesh of so many
// triangles.
fn split_within(
    mesh: &[Row],
    limit: u32,
    strategy: ConvexSplitStrategy,
    begins: &mut [u32],
    joined: &mut [[i32; 2]],
    split_begins: &mut [u32],
    points: &mut [[i32; 2]],
    starts: &mut [u32],
    corners: &mut [i32],
) -> Counts
    requires { (first_fault (mesh_kinds (rows_mesh mesh.now)) ≡ 0)
        × WorkRoom (length mesh.now) (length begins.old) (length joined.old) (length split_begins.old) (length points.old) }
    ensures { SplitAnswered strategy limit (rows_mesh mesh.now) starts.old corners.old
        result starts.new corners.new }
{
    let u = convex_regions::gather(mesh, begins, joined);
    let most = split::raised(limit);
    let t = split_all(begins, joined, u, most, strategy, split_begins, points);
    convex_gather::hand_out(split_begins, points, t, starts, corners)
}

// The parts of an accepted mesh, in work arrays of its own: BEGINS starts and JOINED points for
// the joined parts, SPLIT_BEGINS starts and POINTS points for those they are split into.
fn split_in<
    const BEGINS: usize,
    const JOINED: usize,
    const SPLIT_BEGINS: usize,
    const POINTS: usize,
>(
    mesh: &[Row],
    limit: u32,
    strategy: ConvexSplitStrategy,
    starts: &mut [u32],
    corners: &mut [i32],
) -> Counts
    requires { (first_fault (mesh_kinds (rows_mesh mesh.now)) ≡ 0)
        × WorkRoom (length mesh.now) BEGINS JOINED SPLIT_BEGINS POINTS
        × (BEGINS < 2 ^ 32)
        × (JOINED < 2 ^ 32) }
    ensures { SplitAnswered strategy limit (rows_mesh mesh.now) starts.old corners.old
        result starts.new corners.new }
{
    let mut begins = [0u32; BEGINS];
    let mut joined = [[0i32; 2]; JOINED];
    let mut split_begins = [0u32; SPLIT_BEGINS];
    let mut points = [[0i32; 2]; POINTS];
    split_within(
        mesh,
        limit,
        strategy,
        &mut begins,
        &mut joined,
        &mut split_begins,
        &mut points,
        starts,
        corners,
    )
}

// The parts of a tiny mesh that is accepted.
pub fn split_tiny(
    mesh: &[Row],
    limit: u32,
    strategy: ConvexSplitStrategy,
    starts: &mut [u32],
    corners: &mut [i32],
) -> Counts
    requires { (length mesh.now ≤ tiny) × (first_fault (mesh_kinds (rows_mesh mesh.now)) ≡ 0) }
    ensures { SplitAnswered strategy limit (rows_mesh mesh.now) starts.old corners.old
        result starts.new corners.new }
{
    split_in::<TINY_BEGINS, TINY_JOINED, TINY_SPLIT_BEGINS, TINY_POINTS>(
        mesh, limit, strategy, starts, corners,
    )
}

// The parts of an accepted mesh, in arrays of the sizes past tiny.
pub fn split_more(
    mesh: &[Row],
    limit: u32,
    strategy: ConvexSplitStrategy,
    starts: &mut [u32],
    corners: &mut [i32],
) -> Counts
    requires { first_fault (mesh_kinds (rows_mesh mesh.now)) ≡ 0 }
    ensures { SplitAnswered strategy limit (rows_mesh mesh.now) starts.old corners.old
        result starts.new corners.new }
{
    let n = mesh.len();
    if n <= SMALL {
        split_in::<SMALL_BEGINS, SMALL_JOINED, SMALL_SPLIT_BEGINS, SMALL_POINTS>(
            mesh, limit, strategy, starts, corners,
        )
    } else if n <= MEDIUM {
        split_in::<MEDIUM_BEGINS, MEDIUM_JOINED, MEDIUM_SPLIT_BEGINS, MEDIUM_POINTS>(
            mesh, limit, strategy, starts, corners,
        )
    } else {
        split_in::<LARGE_BEGINS, LARGE_JOINED, LARGE_SPLIT_BEGINS, LARGE_POINTS>(
            mesh, limit, strategy, starts, corners,
        )
    }
}
