// The triangle mesh: how a row of nine numbers is read, and how it is seen over the side that names
// a neighbour (geom/triangle.rs, index.rs). The definitions of the mesh and its faults are in
// specs/Mesh.antt, those of rows in specs/Rows.antt. Leans on plane.
#![tactic(auto)]

ghost use Rattle.std.specs.Prelude.{◌≡◌, ◌<◌};
ghost use Rattle.plane.specs.Machine.{point, CrossSize};
ghost use Rattle.mesh.specs.Mesh.{vertex, neighbour, after, before, opposite, triangle_area};
ghost use Rattle.mesh.specs.Rows.{row_triangle, RowOnGrid};

use plane::IntPoint;

// No neighbour (the Rust's NIL_INDEX; document 01: "None is 4,294,967,295").
pub const NIL_INDEX: usize = 4294967295;

// Document 01's fault 1.
pub const MAX_TRIANGLES: usize = 1024;

// The numbers of a triangle's row: six coordinates and three neighbours.
pub const ROW: usize = 9;

// Their bytes.
pub const ROW_BYTES: usize = 4 * ROW;

// A triangle as it is lent.
pub type Row = [i32; ROW];

// Vertex i of a row.
pub fn vertex_of(row: Row, i: usize) -> IntPoint
    requires { i < 3 }
    ensures { point result ≡ vertex (row_triangle row) i }
{
    IntPoint {
        x: row[2 * i],
        y: row[2 * i + 1],
    }
}

// The neighbour across from vertex i of a row.
pub fn neighbor_of(row: Row, i: usize) -> usize
    requires { i < 3 }
    ensures { result ≡ neighbour (row_triangle row) i }
{
    integers::unsigned(row[6 + i]) as usize
}

// A triangle as it is seen over one of its sides: the far vertex, and the neighbours over the two
// edges there, first the one that ends in it.
#[derive(Clone, Copy)]
pub struct Far {
    pub vertex: IntPoint,
    pub first: usize,
    pub second: usize,
}

// A row as it is seen over the side that names n, or over side 2 (the Rust's `opposite`). Each
// place is named, since a place known only at run time costs more than these tests.
pub fn far_of(row: Row, n: usize) -> Far
    ensures { (point result.vertex ≡ vertex (row_triangle row) (opposite (row_triangle row) n))
        × (result.first ≡ neighbour (row_triangle row) (after (opposite (row_triangle row) n)))
        × (result.second ≡ neighbour (row_triangle row) (before (opposite (row_triangle row) n))) }
{
    let n0 = neighbor_of(row, 0);
    let n1 = neighbor_of(row, 1);
    let n2 = neighbor_of(row, 2);
    if n0 == n {
        return Far {
            vertex: vertex_of(row, 0),
            first: n1,
            second: n2,
        };
    }
    if n1 == n {
        return Far {
            vertex: vertex_of(row, 1),
            first: n2,
            second: n0,
        };
    }
    Far {
        vertex: vertex_of(row, 2),
        first: n0,
        second: n1,
    }
}

// The vertex after vertex i, counter-clockwise.
pub fn after_of(i: usize) -> usize
    requires { i < 3 }
    ensures { (result ≡ after i) × (result < 3) }
{
    if i == 0 {
        return 1;
    }
    if i == 1 {
        return 2;
    }
    0
}

// The doubled area of a row.
pub fn area_of(row: Row) -> i64
    requires { RowOnGrid row }
    ensures { (result ≡ triangle_area (row_triangle row)) × CrossSize result }
{
    plane::area_two(vertex_of(row, 0), vertex_of(row, 1), vertex_of(row, 2))
}
