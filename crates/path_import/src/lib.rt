// A path from a drawing program into corners on the grid: `import_path`, with no `requires`. The
// path is judged item by item, the first of faults 14, 7, 2 and 21 is told, and only then are the
// corners written, each from its item again, so that there is no work array. The answer and the
// lent corners equal the definitions of path/specs/Path.antt. Leans on path.
#![tactic(auto)]

ghost use Rattle.std.specs.Prelude.{◌≡◌, ◌<◌, length, take, get_or};
ghost use Rattle.path.specs.Path.{path_counts, corners_left};
ghost use Rattle.path.specs.Judging.{judge_from};
ghost use Rattle.path.specs.Writing.{write_from, Writable};

use path::{Frame, Judged, PathCounts, PathItem, Point};

// The items judged, one after another.
fn judge_from(path: &[PathItem], frame: Frame, start: Judged) -> Judged
    ensures { result ≡ judge_from frame start path.now }
{
    let mut judged = start;
    for item in path {
        judged = path::judge_item(frame, judged, *item);
    }
    judged
}

// The corners of the first n items, on the front of the lent ones.
fn write_from(path: &[PathItem], frame: Frame, start: Point, n: usize, corners: &mut [i32])
    requires { Writable frame path.now start n corners.old }
    ensures { corners.new ≡ write_from frame (take n path.now) start 0 corners.old }
{
    let mut at = start;
    for (i, item) in path[..n].iter().enumerate() {
        at = path::write_item(frame, at, *item, i, corners);
    }
}

// The corners of a path on the grid of a frame, x and y in turn, on the front of the lent numbers.
// A refusal (14, 7, 2 or 21) tells no corners and changes nothing.
pub fn import_path(path: &[PathItem], frame: Frame, corners: &mut [i32]) -> PathCounts
    ensures { (result ≡ path_counts frame path.now (length corners.old))
        × (corners.new ≡ corners_left frame path.now corners.old) }
{
    let judged = judge_from(path, frame, path::begun());
    let counts = path::told(frame, judged, path.len(), corners);
    write_from(
        path,
        frame,
        path::initial_point(),
        path::corners_told(counts),
        corners,
    );
    counts
}
