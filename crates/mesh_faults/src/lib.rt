// The faults of a mesh: `mesh_fault` gives the first of 1, 2, 3, 4, 5, 6 and 11 that holds, as
// document 01 orders them, for any rows. 1 is a count; a clean mesh (mesh_clean) is then accepted,
// and only where it is not clean are the passes made that tell the number: 3, 4 and 5 are one
// (mesh_neighbors), 2, 6 and 11 one each, which may ask what those before it have shown. Leans on
// mesh_clean, mesh_sound, mesh_neighbors and mesh.
#![tactic(auto)]

ghost use Rattle.std.specs.Prelude.{◌≡◌, false};
ghost use Rattle.integers.specs.Faults.{first_fault};
ghost use Rattle.faults.specs.Told.{told};
ghost use Rattle.mesh.specs.Mesh.{off_grid, flat, too_large, mesh_kinds};
ghost use Rattle.mesh.specs.Rows.{rows_mesh};

use faults::Fault;
use mesh::{MAX_TRIANGLES, Row};

// 2: a coordinate off the grid.
fn off_grid(mesh: &[Row]) -> bool
    ensures { result ≡ off_grid (rows_mesh mesh.now) }
{
    for row in mesh {
        if mesh_sound::row_off(*row) {
            return true;
        }
    }
    false
}

// 6: a triangle's doubled area not above 0.
fn flat(mesh: &[Row]) -> bool
    requires { off_grid (rows_mesh mesh.now) ≡ false }
    ensures { result ≡ flat (rows_mesh mesh.now) }
{
    for row in mesh {
        if mesh_sound::row_flat(*row) {
            return true;
        }
    }
    false
}

// 11: doubled areas that add up to more than 2^63 - 1.
fn too_large(mesh: &[Row]) -> bool
    requires { (off_grid (rows_mesh mesh.now) ≡ false) × (flat (rows_mesh mesh.now) ≡ false) }
    ensures { result ≡ too_large (rows_mesh mesh.now) }
{
    let mut total: i64 = 0;
    for row in mesh {
        let Some(next) = mesh_sound::add_area(total, mesh::area_of(*row)) else {
            return true;
        };
        total = next;
    }
    false
}

// The first fault of a mesh, as document 01 orders them.
pub fn mesh_fault(mesh: &[Row]) -> Result<(), Fault>
    ensures { told result ≡ first_fault (mesh_kinds (rows_mesh mesh.now)) }
{
    if mesh.len() > MAX_TRIANGLES {
        return Err(Fault::Triangles);
    }
    if mesh_clean::is_clean(mesh) {
        return Ok(());
    }
    if off_grid(mesh) {
        return Err(Fault::Range);
    }
    mesh_neighbors::neighbor_fault(mesh)?;
    if flat(mesh) {
        return Err(Fault::Flat);
    }
    if too_large(mesh) {
        return Err(Fault::Total);
    }
    Ok(())
}
