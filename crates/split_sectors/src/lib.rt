// A contour past the limit split about a centre (advanced/convex.rs, the loop of
// `append_centroid_parts`): the parts of `centroid_parts` of split/specs/Splitting.antt, appended
// to those gathered. Which centre, and whether it serves, is not said here. Leans on split_chords,
// points, convex_ring and plane.
#![tactic(auto)]

ghost use Rattle.std.specs.Prelude.{◌≡◌, ◌∷◌, [], ◌+◌, ◌-◌, ◌<◌, ◌≤◌, length, get_or, drop, pos};
ghost use Rattle.std.specs.Int.Signed.{lt_z};
ghost use Rattle.table.specs.Table.{max_contour};
ghost use Rattle.plane.specs.Plane.{O, area_two};
ghost use Rattle.plane.specs.Machine.{point, OnGrid};
ghost use Rattle.points.specs.Points.{corner_in, Grid, Appended, corners_in};
ghost use Rattle.points.specs.Gathered.{RoomFor, PartsAppended};
ghost use Rattle.split.specs.Splitting.{edges_taken, group_parts, centroid_parts};
ghost use Rattle.split_sectors.specs.Arcs.{closed_of, arc_of};

use plane::IntPoint;
use points::Tally;

// Corner i, or the first after the last.
fn corner_round(contour: &[[i32; 2]], i: usize) -> IntPoint
    requires { (0 < length contour.now) × (i ≤ length contour.now) × Grid contour.now }
    ensures { (point result ≡ get_or (closed_of contour.now) i O) × OnGrid result }
{
    if i < contour.len() {
        points::point_at(contour, i)
    } else {
        points::point_at(contour, 0)
    }
}

// Whether the centre, a and b make a positive turn.
fn turns_left(centre: IntPoint, a: IntPoint, b: IntPoint) -> bool
    requires { OnGrid centre × OnGrid a × OnGrid b }
    ensures { result ≡ lt_z (pos 0) (area_two (point centre) (point a) (point b)) }
{
    plane::area_two(centre, a, b) > 0
}

// The corner where the part that starts at corner start ends: at the target, or before the first
// corner that makes no positive turn.
fn sector_end(contour: &[[i32; 2]], centre: IntPoint, start: usize, target: usize) -> usize
    requires { (start < target) × (target ≤ length contour.now) × Grid contour.now × OnGrid centre }
    ensures { result ≡ start + edges_taken (point centre) (target - start) (drop start (closed_of contour.now)) }
{
    let a = points::point_at(contour, start);
    let mut end = start + 1;
    while end < target && turns_left(centre, a, corner_round(contour, end + 1)) {
        end += 1;
    }
    end
}

// The n corners from corner i on, round the contour, are put after the first count points; answers
// the new count.
fn append_arc(
    contour: &[[i32; 2]],
    i: usize,
    n: usize,
    points: &mut [[i32; 2]],
    count: usize,
) -> usize
    requires { (i < length contour.now) × (i + n ≤ length contour.now + 1) × (count + n ≤ length points.old) }
    ensures { Appended (arc_of contour.now i n) points.old count points.new result }
{
    let rest = contour.len() - i;
    if n <= rest {
        split_chords::append_run(contour, i, n, points, count)
    } else {
        let most = split_chords::append_run(contour, i, rest, points, count);
        split_chords::append_point(contour, 0, points, most)
    }
}

// The part of the centre and the n edges from corner start on is appended.
fn append_sector(
    contour: &[[i32; 2]],
    centre: IntPoint,
    start: usize,
    n: usize,
    starts: &mut [u32],
    points: &mut [[i32; 2]],
    t: Tally,
) -> Tally
    requires { (start < length contour.now)
        × (start + n ≤ length contour.now)
        × RoomFor starts.old points.old t ((point centre ∷ arc_of contour.now start (n + 1)) ∷ []) }
    ensures { PartsAppended ((point centre ∷ arc_of contour.now start (n + 1)) ∷ []) starts.old points.old t
        starts.new points.new result }
{
    let count = t.corners;
    points::put_point(points, count, centre);
    let total = append_arc(contour, start, n + 1, points, count + 1);
    split_chords::end_part(starts, t, total)
}

// The parts of the group of edges from corner start to corner target are appended.
fn append_group(
    contour: &[[i32; 2]],
    centre: IntPoint,
    start: usize,
    target: usize,
    starts: &mut [u32],
    points: &mut [[i32; 2]],
    t: Tally,
) -> Tally
    requires { (start ≤ target)
        × (target ≤ length contour.now)
        × Grid contour.now
        × OnGrid centre
        × RoomFor starts.old points.old t (group_parts (target - start) (point centre) (target - start) (drop start (closed_of contour.now))) }
    ensures { PartsAppended (group_parts (target - start) (point centre) (target - start) (drop start (closed_of contour.now)))
        starts.old points.old t starts.new points.new result }
{
    let mut tally = t;
    let mut at = start;
    while at < target {
        let end = sector_end(contour, centre, at, target);
        tally = append_sector(contour, centre, at, end - at, starts, points, tally);
        at = end;
    }
    tally
}

// The parts about the centre are appended.
pub fn append_sectors(
    contour: &[[i32; 2]],
    centre: IntPoint,
    limit: usize,
    starts: &mut [u32],
    points: &mut [[i32; 2]],
    t: Tally,
) -> Tally
    requires { (3 ≤ limit)
        × (limit < length contour.now)
        × (length contour.now ≤ max_contour)
        × Grid contour.now
        × OnGrid centre
        × RoomFor starts.old points.old t (centroid_parts limit (point centre) (corner_in contour.now 0) (corners_in contour.now)) }
    ensures { PartsAppended (centroid_parts limit (point centre) (corner_in contour.now 0) (corners_in contour.now))
        starts.old points.old t starts.new points.new result }
{
    let edges = contour.len();
    let part_count = split_chords::ceil_div(edges, limit - 2);
    let size = edges / part_count;
    let extra = edges % part_count;
    let mut tally = t;
    let mut start: usize = 0;
    for i in 0..part_count {
        let target = start + split_chords::share(i, size, extra);
        tally = append_group(contour, centre, start, target, starts, points, tally);
        start = target;
    }
    tally
}
