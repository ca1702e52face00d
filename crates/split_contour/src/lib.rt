// One contour split, or left whole where it is within the limit (advanced/convex.rs, the choice in
// `convex_polygons`, and `append_centroid_parts`): the parts of `split_contour` of
// split/specs/Splitting.antt, appended to those gathered. Leans on split_chords, split_ears,
// split_sectors, split_centre and points.
#![tactic(auto)]

ghost use Rattle.std.specs.Prelude.{◌∷◌, [], ◌<◌, ◌≤◌, length};
ghost use Rattle.split.specs.Splitting.{centred_parts, split_contour};
ghost use Rattle.split_centre.specs.Centre.{Summable};
ghost use Rattle.points.specs.Points.{corners_in};
ghost use Rattle.points.specs.Gathered.{RoomFor, PartsAppended};

use points::Tally;
use split::ConvexSplitStrategy;

// The parts of a contour about its centre, or its fan where the centre does not serve, are
// appended.
fn append_centroid_parts(
    contour: &[[i32; 2]],
    limit: usize,
    starts: &mut [u32],
    points: &mut [[i32; 2]],
    t: Tally,
) -> Tally
    requires { (3 ≤ limit)
        × (limit < length contour.now)
        × Summable (corners_in contour.now)
        × RoomFor starts.old points.old t (centred_parts limit (corners_in contour.now)) }
    ensures { PartsAppended (centred_parts limit (corners_in contour.now)) starts.old points.old t
        starts.new points.new result }
{
    match split_centre::centre_of(contour) {
        Some(centre) => split_sectors::append_sectors(contour, centre, limit, starts, points, t),
        None => split_chords::append_fan_parts(contour, limit, starts, points, t),
    }
}

// A contour as it is: one part is appended.
fn append_whole(
    contour: &[[i32; 2]],
    starts: &mut [u32],
    points: &mut [[i32; 2]],
    t: Tally,
) -> Tally
    requires { RoomFor starts.old points.old t (corners_in contour.now ∷ []) }
    ensures { PartsAppended (corners_in contour.now ∷ []) starts.old points.old t starts.new
        points.new result }
{
    let count = split_chords::append_run(contour, 0, contour.len(), points, t.corners);
    split_chords::end_part(starts, t, count)
}

// The parts of a contour, which is left whole where it has at most `limit` corners, are appended.
pub fn append_split(
    contour: &[[i32; 2]],
    limit: usize,
    strategy: ConvexSplitStrategy,
    starts: &mut [u32],
    points: &mut [[i32; 2]],
    t: Tally,
) -> Tally
    requires { (3 ≤ limit)
        × Summable (corners_in contour.now)
        × RoomFor starts.old points.old t (split_contour strategy limit (corners_in contour.now)) }
    ensures { PartsAppended (split_contour strategy limit (corners_in contour.now)) starts.old points.old t
        starts.new points.new result }
{
    if contour.len() <= limit {
        return append_whole(contour, starts, points, t);
    }
    match strategy {
        ConvexSplitStrategy::EarClipping => {
            split_ears::append_ear_clipping_parts(contour, limit, starts, points, t)
        }
        ConvexSplitStrategy::Fan => {
            split_chords::append_fan_parts(contour, limit, starts, points, t)
        }
        ConvexSplitStrategy::Centroid => append_centroid_parts(contour, limit, starts, points, t),
    }
}
