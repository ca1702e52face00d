// A lent contour and a walk's place on it, read: whether the length is broken (fault 7), whether a
// place is no corner (fault 23), whether a corner is off the grid (fault 2), and the next place.
// Its corners are read through crate corners. Leans on pair, walk and table (definitions), corners
// and plane.
#![tactic(auto)]

ghost use Rattle.std.specs.Prelude.{◌≡◌, false, ◌<◌, ◌≤◌, length};
ghost use Rattle.corners.specs.Corners.{points_of};
ghost use Rattle.table.specs.Table.{max_contour};
ghost use Rattle.pair.specs.Walk.{next_index};
ghost use Rattle.walk.specs.Calls.{length_broken, misplaced, off_at};

use corners::corner_at;
use pair::Place;
use table::MAX_CONTOUR;

// Whether corner i is off the grid.
pub fn off_at(contour: &[i32], i: usize) -> bool
    requires { i < length (points_of contour.now) }
    ensures { result ≡ off_at (points_of contour.now) i }
{
    !plane::on_grid(corner_at(contour, i))
}

// Whether a contour is of odd length or has more than 1,026 corners.
pub fn length_broken(contour: &[i32]) -> bool
    ensures { result ≡ length_broken contour.now }
{
    corners::ragged(contour) || corners::corner_count(contour) > MAX_CONTOUR
}

// Whether a walk's place, or either end where it walks a segment, is no corner of a contour of n
// corners.
pub fn misplaced(n: usize, w: Place) -> bool
    ensures { result ≡ misplaced n w }
{
    w.index as usize >= n || w.segment && (w.start as usize >= n || w.end as usize >= n)
}

// The next place on a contour of n corners.
pub fn next_index(n: usize, w: Place) -> u16
    requires { (n ≤ max_contour) × (misplaced n w ≡ false) }
    ensures { result ≡ next_index n w }
{
    let index = w.index;
    if w.segment {
        if index == w.start { w.end } else { w.start }
    } else if w.reverse {
        if index == 0 {
            (n - 1) as u16
        } else {
            index - 1
        }
    } else if index as usize + 1 == n {
        0
    } else {
        index + 1
    }
}
