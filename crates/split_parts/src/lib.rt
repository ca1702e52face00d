// Joining with parts past a corner limit split (advanced/convex.rs):
// `to_convex_polygons_with_max_vertices`, with no `requires`. Its answer and both lent buffers are
// those of `SplitAnswered` of split/specs/Splitting.antt. Where a mesh is tiny and no part can have
// more corners than the limit, that is joining; else split_sizes splits the parts in work arrays of
// the mesh's size. Leans on mesh_faults, convex_join and split_sizes.
#![tactic(auto)]

ghost use Rattle.mesh.specs.Rows.{rows_mesh};
ghost use Rattle.split.specs.Splitting.{SplitAnswered};

use convex_regions::TINY;
use mesh::Row;
use split::ConvexSplitStrategy;
use table::Counts;

// The convex parts of a mesh, those past `limit` corners split by `strategy`: starts and corners
// (x, y in turn) on the front of the lent buffers. A refusal (1, 2, 3, 4, 5, 6, 11, 22 or 21) gives
// zero counts and changes nothing. `split_more` has two callers here so that it stays a function of
// its own: with its arrays in this frame, the stack is touched page by page, 86 KB of it, before
// one triangle is looked at.
pub fn to_convex_polygons_with_max_vertices(
    mesh: &[Row],
    limit: u32,
    strategy: ConvexSplitStrategy,
    starts: &mut [u32],
    corners: &mut [i32],
) -> Counts
    ensures { SplitAnswered strategy limit (rows_mesh mesh.now) starts.old corners.old
        result starts.new corners.new }
{
    if let Err(fault) = mesh_faults::mesh_fault(mesh) {
        return convex_gather::refusal(fault.number());
    }
    let n = mesh.len();
    if n <= TINY {
        if n <= split::raised(limit) - 2 {
            convex_join::join_tiny(mesh, starts, corners)
        } else {
            split_sizes::split_tiny(mesh, limit, strategy, starts, corners)
        }
    } else if limit < split::MIN_LIMIT {
        split_sizes::split_more(mesh, split::MIN_LIMIT, strategy, starts, corners)
    } else {
        split_sizes::split_more(mesh, limit, strategy, starts, corners)
    }
}
