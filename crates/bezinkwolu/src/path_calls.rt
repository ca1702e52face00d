// What boundary_path promises, to C.
ghost use Rattle.std.specs.Prelude.{◌≡◌, length};
ghost use Rattle.path.specs.Path.{path_counts, corners_left};
ghost use Rattle.boundary_path.specs.Rows.{items_of};

use boundary_path::Row;
use path::{Frame, PathCounts};

// path_import::import_path, over rows.
#[unsafe(no_mangle)]
pub extern "C" fn bezinkwolu_import_path(
    path: &[Row],
    frame: Frame,
    corners: &mut [i32],
) -> PathCounts
    ensures told { result ≡ path_counts frame (items_of path.now) (length corners.old) }
    ensures corners { corners.new ≡ corners_left frame (items_of path.now) corners.old }
{
    boundary_path::bezinkwolu_import_path(path, frame, corners)
}
