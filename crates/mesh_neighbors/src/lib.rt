// The faults of a mesh's neighbours, 3, 4 and 5, in one pass: each side tells the first that holds
// of it, and the earliest that any side tells is the mesh's (`neighbor_fault`). Leans on mesh.
#![tactic(auto)]

ghost use Rattle.std.specs.Prelude.{◌≡◌, ◌<◌, length};
ghost use Rattle.faults.specs.Told.{told};
ghost use Rattle.plane.specs.Machine.{point};
ghost use Rattle.mesh.specs.Mesh.{triangle_at};
ghost use Rattle.mesh.specs.Rows.{rows_mesh};
ghost use Rattle.mesh_neighbors.specs.Earliest.{earlier, edge_fault, back_fault, side_fault, row_fault, neighbour_fault};

use faults::Fault;
use mesh::{NIL_INDEX, Row};
use plane::IntPoint;

// The earlier of two faults, which are numbered in the order in which they are tried.
fn earlier_of(a: Result<(), Fault>, b: Result<(), Fault>) -> Result<(), Fault>
    ensures { told result ≡ earlier (told a) (told b) }
{
    match (a, b) {
        (Ok(()), _) => b,
        (_, Ok(())) => a,
        (Err(f), Err(g)) => Err(if f.number() < g.number() { f } else { g }),
    }
}

// 5 where the edge from p to q is not the one from a to b.
fn edge_fault(a: IntPoint, b: IntPoint, p: IntPoint, q: IntPoint) -> Result<(), Fault>
    ensures { told result ≡ edge_fault (point a) (point b) (point p) (point q) }
{
    if plane::same_point(a, p) && plane::same_point(b, q) {
        Ok(())
    } else {
        Err(Fault::Edge)
    }
}

// 4 where triangle n does not name k back exactly once, 5 where the edge that it shares so does not
// run from b to a. Each place of its row is named, since a place known only at run time
// costs more than these tests.
fn back_fault(mesh: &[Row], n: usize, k: usize, a: IntPoint, b: IntPoint) -> Result<(), Fault>
    requires { n < length mesh.now }
    ensures { told result ≡ back_fault (triangle_at (rows_mesh mesh.now) n) k (point a) (point b) }
{
    let far = mesh[n];
    let first = mesh::neighbor_of(far, 0) == k;
    let second = mesh::neighbor_of(far, 1) == k;
    let third = mesh::neighbor_of(far, 2) == k;
    match (first, second, third) {
        (true, false, false) => {
            edge_fault(a, b, mesh::vertex_of(far, 2), mesh::vertex_of(far, 1))
        }
        (false, true, false) => {
            edge_fault(a, b, mesh::vertex_of(far, 0), mesh::vertex_of(far, 2))
        }
        (false, false, true) => {
            edge_fault(a, b, mesh::vertex_of(far, 1), mesh::vertex_of(far, 0))
        }
        _ => Err(Fault::Naming),
    }
}

// The first of 3, 4 and 5 that holds of n, the neighbour of triangle k across the edge from a to b;
// o and p are its other two.
fn side_fault(
    mesh: &[Row],
    k: usize,
    n: usize,
    o: usize,
    p: usize,
    a: IntPoint,
    b: IntPoint,
) -> Result<(), Fault>
    ensures { told result ≡ side_fault (rows_mesh mesh.now) k n o p (point a) (point b) }
{
    if n == NIL_INDEX {
        return Ok(());
    }
    if n == k || n >= mesh.len() {
        return Err(Fault::Stray);
    }
    if o == n || p == n {
        return Err(Fault::Naming);
    }
    back_fault(mesh, n, k, a, b)
}

// The earliest of the three sides of triangle k.
fn row_fault(mesh: &[Row], k: usize) -> Result<(), Fault>
    requires { k < length mesh.now }
    ensures { told result ≡ row_fault (rows_mesh mesh.now) k }
{
    let row = mesh[k];
    let n0 = mesh::neighbor_of(row, 0);
    let n1 = mesh::neighbor_of(row, 1);
    let n2 = mesh::neighbor_of(row, 2);
    let v0 = mesh::vertex_of(row, 0);
    let v1 = mesh::vertex_of(row, 1);
    let v2 = mesh::vertex_of(row, 2);
    let first = side_fault(mesh, k, n0, n1, n2, v1, v2);
    let second = side_fault(mesh, k, n1, n2, n0, v2, v0);
    let third = side_fault(mesh, k, n2, n0, n1, v0, v1);
    earlier_of(first, earlier_of(second, third))
}

// The first of 3, 4 and 5 that holds of the mesh.
pub fn neighbor_fault(mesh: &[Row]) -> Result<(), Fault>
    ensures { told result ≡ neighbour_fault (rows_mesh mesh.now) }
{
    let mut judged = Ok(());
    for k in 0..mesh.len() {
        judged = earlier_of(judged, row_fault(mesh, k));
    }
    judged
}
