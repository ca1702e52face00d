// A mesh lent as a slice of triangle structs (geom/triangle.rs), read into the rows that the
// joining works over: one function reads a struct, and one reads all of them into an array of the
// size that its caller names (what is read so far: proofs/Reading.antt). Leans on plane and
// table_words.
#![tactic(auto)]

ghost use Rattle.std.specs.Prelude.{◌≡◌, ◌<◌, ◌≤◌, ◌^◌, length, get_or};
ghost use Rattle.mesh.specs.Rows.{row_triangle};
ghost use Rattle.triangles.specs.Triangles.{no_struct, struct_triangle, AreRead};

use mesh::Row;
use plane::IntPoint;

// A triangle: its three points, and the three neighbours across from them. None is 4,294,967,295.
#[repr(C)]
#[derive(Clone, Copy)]
pub struct IntTriangle {
    pub vertices: [IntPoint; 3],
    pub neighbors: [u32; 3],
}

// The row of a triangle.
pub fn row_of(t: IntTriangle) -> Row
    ensures { row_triangle result ≡ struct_triangle t }
{
    let a = t.vertices[0];
    let b = t.vertices[1];
    let c = t.vertices[2];
    [
        a.x,
        a.y,
        b.x,
        b.y,
        c.x,
        c.y,
        table_words::signed_word(t.neighbors[0]),
        table_words::signed_word(t.neighbors[1]),
        table_words::signed_word(t.neighbors[2]),
    ]
}

// Triangle k of a mesh.
pub fn triangle_at(mesh: &[IntTriangle], k: usize) -> IntTriangle
    requires { k < length mesh.now }
    ensures { result ≡ get_or mesh.now k no_struct }
{
    mesh[k]
}

// The rows of a mesh, on the front of an array of ROWS rows.
pub fn rows_in<const ROWS: usize>(mesh: &[IntTriangle]) -> [Row; ROWS]
    requires { (length mesh.now ≤ ROWS) × (ROWS < 2 ^ 32) }
    ensures { AreRead mesh.now result }
{
    let mut rows = [[0i32; mesh::ROW]; ROWS];
    for k in 0..mesh.len() {
        rows[k] = row_of(triangle_at(mesh, k));
    }
    rows
}
