// Splitting, exported to C for the package (./package) and the runs beside the Rust
// (oracle/beside): one thin function, with no `requires`, that takes the split as the number which
// document 01's file has for it and refuses any other number with 13. Its answer and both lent
// buffers as it returns are those of `NumberedAnswered` of specs/Told.antt. Leans on split_parts
// and, for the numbers, on listing.
#![tactic(auto)]

ghost use Rattle.mesh.specs.Rows.{rows_mesh};
ghost use Rattle.boundary_split.specs.Told.{NumberedAnswered};

use mesh::Row;
use table::Counts;

// The last split's number: "0 ear, 1 fan, 2 centroid" (document 01).
pub const LAST_SPLIT: u32 = 2;

// split_parts::to_convex_polygons_with_max_vertices. Refuses with 13 before anything else where
// there is no such split.
#[unsafe(no_mangle)]
pub extern "C" fn bezinkwolu_to_convex_polygons_with_max_vertices(
    mesh: &[Row],
    limit: u32,
    split: u32,
    starts: &mut [u32],
    corners: &mut [i32],
) -> Counts
    ensures { NumberedAnswered split limit (rows_mesh mesh.now) starts.old corners.old
        result starts.new corners.new }
{
    if split > LAST_SPLIT {
        return Counts {
            fault: integers::fault::FILE,
            parts: 0,
            corners: 0,
        };
    }
    split_parts::to_convex_polygons_with_max_vertices(
        mesh,
        limit,
        listing::strategy(split),
        starts,
        corners,
    )
}
