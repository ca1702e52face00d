// A region grown from its first triangle until nothing is pending (`grow`, the Rust's inner loop in
// advanced/convex.rs): its buffers then hold the whole contour, done (specs/Growing.antt). Leans on
// convex_ring and mesh.
#![tactic(auto)]

ghost use Rattle.std.specs.Prelude.{◌≡◌, false, ◌∷◌, [], ◌-◌, ◌<◌, ◌≤◌, length, get_or, set};
ghost use Rattle.plane.specs.Machine.{point};
ghost use Rattle.mesh.specs.Mesh.{vertex, neighbour, before};
ghost use Rattle.mesh.specs.Rows.{row_triangle, rows_mesh};
ghost use Rattle.points.specs.Points.{pair_of};
ghost use Rattle.convex_ring.specs.Buffers.{RegionBuffers, Sound};
ghost use Rattle.convex_grow.specs.Growing.{moved_by, pushed_by, Stepped, Started, Ran, Grown};

use convex_ring::Progress;
use mesh::{Far, NIL_INDEX, Row};

// The top corner is done.
fn move_top(corners: &mut [[i32; 2]], p: Progress) -> Progress
    requires { (0 < p.pending) × (p.pending ≤ p.done) × (p.done ≤ length corners.old) }
    ensures buffer { corners.new ≡ set corners.old (p.done - 1) (get_or corners.old (p.pending - 1) []) }
    ensures counts { result ≡ moved_by p }
{
    let top = p.pending - 1;
    let first = p.done - 1;
    corners[first] = corners[top];
    Progress {
        pending: top,
        done: first,
        ..p
    }
}

// The edge out of the corner at i.
fn put_edge(edges: &mut [[usize; 2]], i: usize, inside: usize, across: usize)
    requires { i < length edges.old }
    ensures { edges.new ≡ set edges.old i (inside ∷ across ∷ []) }
{
    edges[i] = [inside, across];
}

// The far vertex of triangle k is put after the top corner, with the two new edges.
fn push(
    corners: &mut [[i32; 2]],
    edges: &mut [[usize; 2]],
    k: usize,
    far: Far,
    p: Progress,
) -> Progress
    requires { (length edges.old ≡ length corners.old) × (0 < p.pending) × (p.pending < length corners.old) }
    ensures buffer { corners.new ≡ set corners.old p.pending (pair_of (point far.vertex)) }
    ensures both { edges.new ≡ set (set edges.old (p.pending - 1) (k ∷ far.first ∷ [])) p.pending (k ∷ far.second ∷ []) }
    ensures counts { result ≡ pushed_by p }
{
    let top = p.pending;
    put_edge(edges, top - 1, k, far.first);
    put_edge(edges, top, k, far.second);
    points::put_point(corners, top, far.vertex);
    Progress {
        pending: top + 1,
        last: p.done,
        ..p
    }
}

// One edge is taken from the top: the triangle across joins, or the top corner is done.
fn step(
    mesh: &[Row],
    corners: &mut [[i32; 2]],
    edges: &mut [[usize; 2]],
    taken: &mut [bool],
    p: Progress,
) -> Progress
    requires { Sound (length corners.old) (rows_mesh mesh.now) corners.old edges.old taken.old p × (0 < p.pending) }
    ensures { Stepped (length corners.old) (rows_mesh mesh.now) corners.old edges.old taken.old
        p corners.new edges.new taken.new result }
{
    let pending = p.pending;
    let [inside, across] = edges[pending - 1];
    if across == NIL_INDEX || taken[across] {
        return move_top(corners, p);
    }
    let far = mesh::far_of(mesh[across], inside);
    if convex_ring::joins_over(corners, far.vertex, pending, p.done) {
        taken[across] = true;
        push(corners, edges, across, far, p)
    } else {
        move_top(corners, p)
    }
}

// Vertex i of triangle k as pending corner i, with the edge to the next vertex.
fn put_vertex(corners: &mut [[i32; 2]], edges: &mut [[usize; 2]], row: Row, k: usize, i: usize)
    requires { (length edges.old ≡ length corners.old) × (3 ≤ length corners.old) × (i < 3) }
    ensures buffer { corners.new ≡ set corners.old i (pair_of (vertex (row_triangle row) i)) }
    ensures edge { edges.new ≡ set edges.old i (k ∷ neighbour (row_triangle row) (before i) ∷ []) }
{
    points::put_point(corners, i, mesh::vertex_of(row, i));
    put_edge(
        edges,
        i,
        k,
        mesh::neighbor_of(row, mesh::after_of(mesh::after_of(i))),
    );
}

// Triangle k, which is not taken, starts a region.
fn start_region(
    mesh: &[Row],
    corners: &mut [[i32; 2]],
    edges: &mut [[usize; 2]],
    taken: &mut [bool],
    k: usize,
) -> Progress
    requires { RegionBuffers (length corners.old) (rows_mesh mesh.now) corners.old edges.old taken.old
        × (k < length mesh.now)
        × (get_or taken.old k false ≡ false) }
    ensures { Started (length corners.old) (rows_mesh mesh.now) k taken.old corners.new edges.new
        taken.new result }
{
    let row = mesh[k];
    let size = corners.len();
    put_vertex(corners, edges, row, k, 0);
    put_vertex(corners, edges, row, k, 1);
    put_vertex(corners, edges, row, k, 2);
    taken[k] = true;
    Progress {
        pending: 3,
        done: size,
        last: size,
    }
}

// Edges are taken from the top until none is pending.
fn run(
    mesh: &[Row],
    corners: &mut [[i32; 2]],
    edges: &mut [[usize; 2]],
    taken: &mut [bool],
    from: Progress,
) -> Progress
    requires { Sound (length corners.old) (rows_mesh mesh.now) corners.old edges.old taken.old from }
    ensures { Ran (length corners.old) (rows_mesh mesh.now) corners.old edges.old taken.old
        from corners.new edges.new taken.new result }
{
    let mut p = from;
    while p.pending > 0 {
        p = step(mesh, corners, edges, taken, p);
    }
    p
}

// The region that starts with triangle k, which is not taken: its corners are done, from `done` to
// the end of the buffer.
pub fn grow(
    mesh: &[Row],
    corners: &mut [[i32; 2]],
    edges: &mut [[usize; 2]],
    taken: &mut [bool],
    k: usize,
) -> Progress
    requires { RegionBuffers (length corners.old) (rows_mesh mesh.now) corners.old edges.old taken.old
        × (k < length mesh.now)
        × (get_or taken.old k false ≡ false) }
    ensures { Grown (length corners.old) (rows_mesh mesh.now) k taken.old corners.new edges.new
        taken.new result }
{
    let p = start_region(mesh, corners, edges, taken, k);
    run(mesh, corners, edges, taken, p)
}
