// A mesh file as an operand of pairs: its split parts with its mesh's own bounds
// (specs/Operand.antt). `take_operand` takes any bytes; `file_bounds` reads the bounds of an
// accepted file. That pairs do not refuse such an operand for itself is `FileIsOperand` there.
// Leans on file_parts, mesh_bounds and split_operand.
#![tactic(auto)]

ghost use Rattle.std.specs.Prelude.{◌≡◌};
ghost use Rattle.listing.specs.File.{mesh_of, file_fault};
ghost use Rattle.mesh_bounds.specs.Bounds.{mesh_bounds};
ghost use Rattle.mesh_operand.specs.Operand.{RowsFor, TakenFrom};

use file_parts::{NUMBERS, STARTS};
use table::IntRect;

// What `take_operand` answers: the fault number, 0 for none, how many parts and corners were
// written, and the bounds; 0 where it refused.
#[derive(Clone, Copy)]
pub struct Taken {
    pub fault: u32,
    pub parts: usize,
    pub corners: usize,
    pub bounds: IntRect,
}

// The bounds of an accepted file's mesh, read into as many rows.
fn bounds_within(bytes: &[u8], rows: &mut [mesh::Row]) -> IntRect
    requires { RowsFor bytes.now rows.old }
    ensures { result ≡ mesh_bounds (mesh_of bytes.now) }
{
    mesh_file::read_rows(&bytes[mesh_file::HEADER..], rows);
    mesh_bounds::mesh_bounds(rows)
}

// The bounds of an accepted file's mesh.
pub fn file_bounds(bytes: &[u8]) -> IntRect
    requires { file_fault bytes.now ≡ 0 }
    ensures { result ≡ mesh_bounds (mesh_of bytes.now) }
{
    let n = mesh_file::triangle_count(bytes) as usize;
    let mut rows = [[0i32; mesh::ROW]; mesh::MAX_TRIANGLES];
    bounds_within(bytes, &mut rows[..n])
}

// A mesh file as an operand: its split parts on the front of the lent starts and corners, and its
// bounds, or its fault (13, 1, 2, 3, 4, 5, 6 or 11).
pub fn take_operand(bytes: &[u8], starts: &mut [u32; STARTS], corners: &mut [i32; NUMBERS]) -> Taken
    ensures { TakenFrom bytes.now result starts.new corners.new }
{
    let told = file_parts::split_file(bytes, starts, corners);
    if told.fault != 0 {
        return Taken {
            fault: told.fault,
            parts: 0,
            corners: 0,
            bounds: IntRect {
                min_x: 0,
                max_x: 0,
                min_y: 0,
                max_y: 0,
            },
        };
    }
    Taken {
        fault: told.fault,
        parts: told.parts as usize,
        corners: told.corners as usize,
        bounds: file_bounds(bytes),
    }
}
