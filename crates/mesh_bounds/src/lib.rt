// The bounds of a mesh (document 01: "least and greatest x and y of the original source"):
// `mesh_bounds`, of any rows; those of an empty mesh are 0. Its answer is `mesh_bounds` of
// specs/Bounds.antt; that each bound is a vertex's and no vertex is past one is `MeshBounded`
// there. Leans on mesh and table.
#![tactic(auto)]

ghost use Rattle.std.specs.Prelude.{◌≡◌};
ghost use Rattle.plane.specs.Machine.{point};
ghost use Rattle.mesh.specs.Rows.{row_triangle, rows_mesh};
ghost use Rattle.mesh_bounds.specs.Bounds.{lesser, greater, point_bounds, widened, widened_by, corners, mesh_bounds};

use mesh::Row;
use plane::IntPoint;
use table::IntRect;

// The bounds of a point alone.
pub fn bounds_of(p: IntPoint) -> IntRect
    ensures { result ≡ point_bounds (point p) }
{
    IntRect {
        min_x: p.x,
        max_x: p.x,
        min_y: p.y,
        max_y: p.y,
    }
}

// Bounds that a point is brought into.
pub fn with_point(b: IntRect, p: IntPoint) -> IntRect
    ensures { result ≡ widened b (point p) }
{
    IntRect {
        min_x: b.min_x.min(p.x),
        max_x: b.max_x.max(p.x),
        min_y: b.min_y.min(p.y),
        max_y: b.max_y.max(p.y),
    }
}

// Bounds that the three vertices of a row are brought into.
fn with_row(b: IntRect, row: Row) -> IntRect
    ensures { result ≡ widened_by b (corners (row_triangle row)) }
{
    let one = with_point(b, mesh::vertex_of(row, 0));
    let two = with_point(one, mesh::vertex_of(row, 1));
    with_point(two, mesh::vertex_of(row, 2))
}

// The least and greatest x and y of all vertices; 0 where there are none.
pub fn mesh_bounds(rows: &[Row]) -> IntRect
    ensures { result ≡ mesh_bounds (rows_mesh rows.now) }
{
    let [first, ..] = rows else {
        return IntRect {
            min_x: 0,
            max_x: 0,
            min_y: 0,
            max_y: 0,
        };
    };
    let mut b = bounds_of(mesh::vertex_of(*first, 0));
    for row in rows {
        b = with_row(b, *row);
    }
    b
}
