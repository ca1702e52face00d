// What a mesh is asked of each row by itself: on the grid, a doubled area above 0, and what the
// areas add up to. `all_sound` asks it of all rows in one pass, in order; the tests of one row and
// the sum are those by which mesh_faults tells 2, 6 and 11. Leans on mesh.
#![tactic(auto)]

ghost use Rattle.std.specs.Prelude.{◌≡◌, pos, ◌+ℤ◌, ◌≤ℤ◌};
ghost use Rattle.std.specs.Int.Signed.{le_z};
ghost use Rattle.mesh.specs.Mesh.{triangle_off, triangle_area};
ghost use Rattle.mesh.specs.Rows.{row_triangle, rows_mesh, RowOnGrid};
ghost use Rattle.mesh_sound.specs.Totals.{added_of};
ghost use Rattle.mesh_sound.specs.Sound.{sound, sound_from};

use mesh::Row;

// Whether a coordinate of a row is off the grid.
pub fn row_off(row: Row) -> bool
    ensures { result ≡ triangle_off (row_triangle row) }
{
    !plane::on_grid(mesh::vertex_of(row, 0))
        || !plane::on_grid(mesh::vertex_of(row, 1))
        || !plane::on_grid(mesh::vertex_of(row, 2))
}

// Whether a row's doubled area is not above 0.
pub fn row_flat(row: Row) -> bool
    requires { RowOnGrid row }
    ensures { result ≡ le_z (triangle_area (row_triangle row)) (pos 0) }
{
    mesh::area_of(row) <= 0
}

// total + area, where both are at least 0, or none where that is past 2^63 - 1.
#[tactic(auto, unfolding(crate::specs::Totals::added_of))]
pub fn add_area(total: i64, area: i64) -> Option<i64>
    requires { (pos 0 ≤ℤ total) × (pos 0 ≤ℤ area) }
    ensures { result ≡ added_of (total +ℤ area) }
{
    total.checked_add(area)
}

// Whether a row is on the grid and its doubled area above 0.
#[tactic(auto, using(crate::proofs::Passes::on_grid_lem), unfolding(crate::specs::Sound::sound))]
fn row_sound(row: Row) -> bool
    ensures { result ≡ sound (row_triangle row) }
{
    !row_off(row) && !row_flat(row)
}

// Whether every row is sound and the doubled areas add up to at most 2^63 - 1.
pub fn all_sound(mesh: &[Row]) -> bool
    ensures { result ≡ sound_from (pos 0) (rows_mesh mesh.now) }
{
    let mut total: i64 = 0;
    for row in mesh {
        if !row_sound(*row) {
            return false;
        }
        let Some(next) = add_area(total, mesh::area_of(*row)) else {
            return false;
        };
        total = next;
    }
    true
}
