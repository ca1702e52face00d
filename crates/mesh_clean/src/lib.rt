// Whether a mesh is clean (`is_clean`): one that is has no fault (`clean-accepted`); of one that is
// not, mesh_faults tells the number. Two passes: the first (mesh_sound) reads the rows in order,
// which brings a mesh that is not yet in the cache into it, so that the second's jumps from
// neighbour to neighbour cost little. The second compares each shared edge once, from its later
// triangle, and counts: where no more sides name a later triangle than were compared, each of those
// was met (proofs/Pairing.antt). Leans on mesh_sound and mesh.
#![tactic(auto)]

ghost use Rattle.std.specs.Prelude.{◌≡◌, cond, ◌+◌, ◌<◌, ◌≤◌, ◌^◌, length};
ghost use Rattle.plane.specs.Plane.{Pt};
ghost use Rattle.mesh.specs.Mesh.{vertex, triangle_at, max_triangles};
ghost use Rattle.mesh.specs.Rows.{row_triangle, rows_mesh};
ghost use Rattle.mesh_clean.specs.Packed.{Packs};
ghost use Rattle.mesh_clean.specs.Clean.{shares_back, linked, clean};
ghost use Rattle.mesh_clean.specs.Counted.{Counted, RowCounted};

use mesh::{NIL_INDEX, Row};

// Vertex i of a row as one number, its coordinates' 32 bits side by side, so that two points are
// compared at once.
fn packed_of(row: Row, i: usize) -> u64
    requires { i < 3 }
    ensures { Packs (vertex (row_triangle row) i) result }
{
    let p = mesh::vertex_of(row, i);
    integers::unsigned(p.x) as u64 + integers::unsigned(p.y) as u64 * 4294967296
}

// One of two numbers, by a test.
fn choose(test: bool, yes: u64, no: u64) -> u64
    ensures { result ≡ cond test yes no }
{
    if test { yes } else { no }
}

// Of a row that triangle k names over the edge from a to b, points as numbers: whether its first
// side that names k runs from b to a. That side is chosen (conditional moves) and not branched on:
// which it is cannot be foretold, and a branch that is foretold wrong costs more than all the rest.
// Where no side names k, what is chosen begins at 2^64 - 1 - b, which is not b, since the two add
// up to an odd number.
fn names_back(far: Row, k: usize, a: u64, b: u64) -> bool
    ensures { (p q : Pt) → Packs p a → Packs q b → result ≡ shares_back (row_triangle far) k p q }
{
    let v0 = packed_of(far, 0);
    let v1 = packed_of(far, 1);
    let v2 = packed_of(far, 2);
    let first = mesh::neighbor_of(far, 0) == k;
    let second = mesh::neighbor_of(far, 1) == k;
    let third = mesh::neighbor_of(far, 2) == k;
    let last = choose(third, v0, u64::MAX - b);
    let from = choose(first, v1, choose(second, v2, last));
    let to = choose(first, v2, choose(second, v0, v1));
    from == b && to == a
}

// What the second pass has seen so far: whether every edge that it asked for is shared, and how
// many sides name a triangle before their own, and after it.
#[derive(Clone, Copy)]
pub struct Seen {
    pub shared: bool,
    pub before: usize,
    pub after: usize,
}

// The side of triangle k across whose edge, from a to b, it names n: counted, and where n is before
// k, whether n's first side that names k runs from b to a. A side that names a triangle after its
// own is only counted, and one that names none passed over, by a test taken as a number: one
// branch, n < k, tells both from the rest.
fn count_side(mesh: &[Row], k: usize, n: usize, a: u64, b: u64, s: Seen) -> Seen
    requires { (k < length mesh.now) × (s.before < 2 ^ 32) × (s.after < 2 ^ 32) }
    ensures { Counted (rows_mesh mesh.now) k n a b s result }
{
    if n < k {
        Seen {
            shared: names_back(mesh[n], k, a, b),
            before: s.before + 1,
            after: s.after,
        }
    } else {
        Seen {
            shared: true,
            before: s.before,
            after: s.after + usize::from(n != NIL_INDEX),
        }
    }
}

// The three sides of triangle k, up to the first whose edge is not shared.
fn count_row(mesh: &[Row], k: usize, s: Seen) -> Seen
    requires { (k < length mesh.now) × (s.before + 2 < 2 ^ 32) × (s.after + 2 < 2 ^ 32) }
    ensures { RowCounted (rows_mesh mesh.now) k (triangle_at (rows_mesh mesh.now) k) s result }
{
    let row = mesh[k];
    let v0 = packed_of(row, 0);
    let v1 = packed_of(row, 1);
    let v2 = packed_of(row, 2);
    let s0 = count_side(mesh, k, mesh::neighbor_of(row, 0), v1, v2, s);
    if !s0.shared {
        return s0;
    }
    let s1 = count_side(mesh, k, mesh::neighbor_of(row, 1), v2, v0, s0);
    if !s1.shared {
        return s1;
    }
    count_side(mesh, k, mesh::neighbor_of(row, 2), v0, v1, s1)
}

// The second pass: whether the edge of every side that names a triangle before its own is shared,
// and there are as many sides that name one after it.
fn all_linked(mesh: &[Row]) -> bool
    requires { length mesh.now ≤ max_triangles }
    ensures { result ≡ linked (rows_mesh mesh.now) }
{
    let mut s = Seen {
        shared: true,
        before: 0,
        after: 0,
    };
    for k in 0..mesh.len() {
        s = count_row(mesh, k, s);
        if !s.shared {
            return false;
        }
    }
    s.before == s.after
}

// Whether every triangle is sound, their doubled areas add up to at most 2^63 - 1, and every edge
// that has a neighbour is shared. Then the mesh has no fault.
pub fn is_clean(mesh: &[Row]) -> bool
    requires { length mesh.now ≤ max_triangles }
    ensures { result ≡ clean (rows_mesh mesh.now) }
{
    mesh_sound::all_sound(mesh) && all_linked(mesh)
}
