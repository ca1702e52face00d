// The split parts of a mesh file (document 01, "The file and its listing"): `split_file` takes the
// bytes of a file, any bytes, reads its mesh and leaves the table of its split parts on the front
// of lent starts and corners, or tells the file's fault and changes nothing. The lent arrays hold
// the parts of any mesh, so that 22 and 21 cannot be. Its answer and both arrays are equations with
// `file_fault` and `file_parts` of listing/specs/File.antt. `front` takes the corners that are told
// of from the array. Leans on mesh_file, split_parts and corners.
#![tactic(auto)]

ghost use Rattle.std.specs.Prelude.{◌≡◌, ◌≤◌, length};
ghost use Rattle.corners.specs.Corners.{points_of, front_corners};
ghost use Rattle.table.specs.Table.{starts_of, corners_of, counts_of, written};
ghost use Rattle.listing.specs.File.{file_fault, file_parts};
ghost use Rattle.file_parts.specs.Room.{FileRoom, Within};

use table::Counts;

// As many starts and corners' numbers as the split parts of any mesh have: at most six corners of
// two numbers for each triangle.
pub const STARTS: usize = table::MAX_PARTS + 1;

pub const NUMBERS: usize = corners::WIDTH * (6 * mesh::MAX_TRIANGLES);

// The split parts of a file whose header is sound, its mesh read into as many rows.
fn split_sound(
    bytes: &[u8],
    rows: &mut [mesh::Row],
    starts: &mut [u32],
    corners: &mut [i32],
) -> Counts
    requires { FileRoom bytes.now rows.old starts.old corners.old }
    ensures counts { result ≡ counts_of (file_fault bytes.now) (file_parts bytes.now) }
    ensures starts { starts.new ≡ written (file_fault bytes.now) (starts_of (file_parts bytes.now)) starts.old }
    ensures corners { let b = bytes.now in
        corners.new ≡ written (file_fault b) (corners_of (file_parts b)) corners.old }
    ensures within { result.fault ≡ 0 → Within result starts.new corners.new }
{
    mesh_file::read_rows(&bytes[mesh_file::HEADER..], rows);
    let limit = mesh_file::corner_limit(bytes);
    let strategy = mesh_file::strategy(bytes);
    split_parts::to_convex_polygons_with_max_vertices(rows, limit, strategy, starts, corners)
}

// The split parts of a mesh file, on the front of the lent starts and corners. A refusal (13, 1, 2,
// 3, 4, 5, 6 or 11) gives zero counts and changes nothing. The last clause says that what the
// counts tell of is there, for a caller that takes it from the arrays.
pub fn split_file(bytes: &[u8], starts: &mut [u32; STARTS], corners: &mut [i32; NUMBERS]) -> Counts
    ensures counts { result ≡ counts_of (file_fault bytes.now) (file_parts bytes.now) }
    ensures starts { starts.new ≡ written (file_fault bytes.now) (starts_of (file_parts bytes.now)) starts.old }
    ensures corners { let b = bytes.now in
        corners.new ≡ written (file_fault b) (corners_of (file_parts b)) corners.old }
    ensures within { result.fault ≡ 0 → Within result starts.new corners.new }
{
    let fault = mesh_file::header_fault(bytes);
    if fault != 0 {
        return convex_gather::refusal(fault);
    }
    let n = mesh_file::triangle_count(bytes) as usize;
    let mut rows = [[0i32; mesh::ROW]; mesh::MAX_TRIANGLES];
    split_sound(bytes, &mut rows[..n], starts, corners)
}

// The first `count` corners of the array that a file's parts were left in, where they lie.
pub fn front<'a>(corners: &'a [i32; NUMBERS], count: usize) -> &'a [i32]
    requires { count ≤ length (points_of corners.now) }
    ensures { result.now ≡ front_corners count corners.now }
{
    corners::front(corners, count)
}
