// What boundary_walk promises, to C.
ghost use Rattle.std.specs.Prelude.{◌≡◌, true, false};
ghost use Rattle.walk.specs.Calls.{begun_of, pointed_of, edged_of, advanced_of, stepped_of, paired_of, pair_stepped_of};
ghost use Rattle.boundary_walk.specs.Told.{told_begun, told_pointed, told_edged, told_advanced, told_stepped, told_paired, told_next};

use boundary_walk::{ToldEdge, ToldNext, ToldPair, ToldPlace, ToldPoint, ToldStep};
use pair::{ConvexSum, Place};

// walk_begin::begin.
#[unsafe(no_mangle)]
pub extern "C" fn bezinkwolu_walk_begin(contour: &[i32], reflected: bool) -> ToldPlace
    ensures { result ≡ told_begun (begun_of contour.now reflected) }
{
    boundary_walk::bezinkwolu_walk_begin(contour, reflected)
}

// walk_step::point.
#[unsafe(no_mangle)]
pub extern "C" fn bezinkwolu_walk_point(contour: &[i32], w: Place) -> ToldPoint
    ensures { result ≡ told_pointed (pointed_of contour.now w) }
{
    boundary_walk::bezinkwolu_walk_point(contour, w)
}

// walk_step::edge.
#[unsafe(no_mangle)]
pub extern "C" fn bezinkwolu_walk_edge(contour: &[i32], w: Place) -> ToldEdge
    ensures { result ≡ told_edged (edged_of contour.now w) }
{
    boundary_walk::bezinkwolu_walk_edge(contour, w)
}

// walk_step::advance.
#[unsafe(no_mangle)]
pub extern "C" fn bezinkwolu_walk_advance(contour: &[i32], w: Place) -> ToldPlace
    ensures { result ≡ told_advanced (advanced_of contour.now w) }
{
    boundary_walk::bezinkwolu_walk_advance(contour, w)
}

// walk_step::next.
#[unsafe(no_mangle)]
pub extern "C" fn bezinkwolu_walk_next(contour: &[i32], w: Place) -> ToldStep
    ensures { result ≡ told_stepped (stepped_of contour.now w) }
{
    boundary_walk::bezinkwolu_walk_next(contour, w)
}

// walk_pair::new.
#[unsafe(no_mangle)]
pub extern "C" fn bezinkwolu_pair_new(left: &[i32], right: &[i32]) -> ToldPair
    ensures { result ≡ told_paired (paired_of false left.now right.now) }
{
    boundary_walk::bezinkwolu_pair_new(left, right)
}

// walk_pair::difference.
#[unsafe(no_mangle)]
pub extern "C" fn bezinkwolu_pair_difference(left: &[i32], right: &[i32]) -> ToldPair
    ensures { result ≡ told_paired (paired_of true left.now right.now) }
{
    boundary_walk::bezinkwolu_pair_difference(left, right)
}

// walk_next::next.
#[unsafe(no_mangle)]
pub extern "C" fn bezinkwolu_pair_next(left: &[i32], right: &[i32], s: ConvexSum) -> ToldNext
    ensures { result ≡ told_next (pair_stepped_of left.now right.now s) }
{
    boundary_walk::bezinkwolu_pair_next(left, right, s)
}
