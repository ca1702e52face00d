// A contour past the limit split by chords (advanced/convex.rs, `append_fan_parts`): the parts of
// `fan_parts` of split/specs/Splitting.antt, appended to those gathered. Here too is what each
// split uses: runs of corners appended, a part ended, the sizes of balanced groups. Leans on points
// and split's definitions.
#![tactic(auto)]

ghost use Rattle.std.specs.Prelude.{◌≡◌, cond, ◌∷◌, [], ◌+◌, ◌<◌, ◌≤◌, ◌^◌, ltb, length, set};
ghost use Rattle.table.specs.Table.{max_contour};
ghost use Rattle.points.specs.Points.{corner_in, Appended, corners_in};
ghost use Rattle.points.specs.Gathered.{RoomFor, PartsAppended};
ghost use Rattle.split.specs.Splitting.{ceil_div, fan_parts};
ghost use Rattle.split_chords.specs.Runs.{run_of};

use points::Tally;

// Corner i of the contour is put after the first count points; answers the new count.
pub fn append_point(contour: &[[i32; 2]], i: usize, points: &mut [[i32; 2]], count: usize) -> usize
    requires { (i < length contour.now) × (count < length points.old) }
    ensures { Appended (corner_in contour.now i ∷ []) points.old count points.new result }
{
    points[count] = contour[i];
    count + 1
}

// And n corners from corner i on, one after another: the buffers may lie anywhere, and the copy of
// a slice would ask for memmove.
pub fn append_run(
    contour: &[[i32; 2]],
    i: usize,
    n: usize,
    points: &mut [[i32; 2]],
    count: usize,
) -> usize
    requires { (i + n ≤ length contour.now) × (count + n ≤ length points.old) }
    ensures { Appended (run_of contour.now i n) points.old count points.new result }
{
    let mut total = count;
    for k in 0..n {
        total = append_point(contour, i + k, points, total);
    }
    total
}

// The part whose points end at n ends: the next one starts there.
pub fn end_part(starts: &mut [u32], t: Tally, n: usize) -> Tally
    requires { (t.parts + 1 < length starts.old) × (n < 2 ^ 32) }
    ensures { (starts.new ≡ set starts.old (t.parts + 1) n) × (result ≡ record { parts = t.parts + 1; corners = n }) }
{
    let parts = t.parts + 1;
    points::put_start(starts, parts, n);
    Tally { parts, corners: n }
}

// How many groups of at most b hold a things.
pub fn ceil_div(a: usize, b: usize) -> usize
    requires { (0 < a) × (a ≤ max_contour) × (0 < b) × (b ≤ max_contour) }
    ensures { (result ≡ ceil_div a b) × (0 < result) }
{
    a.div_ceil(b)
}

// The size of group i: the first ones are one larger where the division leaves a rest.
pub fn share(i: usize, size: usize, extra: usize) -> usize
    requires { size < 2 ^ 32 }
    ensures { result ≡ size + cond (ltb i extra) 1 0 }
{
    if i < extra { size + 1 } else { size }
}

// The fan's part of the corners start to start + size is appended.
fn append_fan_part(
    contour: &[[i32; 2]],
    start: usize,
    size: usize,
    starts: &mut [u32],
    points: &mut [[i32; 2]],
    t: Tally,
) -> Tally
    requires { (start + size < length contour.now)
        × RoomFor starts.old points.old t ((corner_in contour.now 0 ∷ run_of contour.now start (size + 1)) ∷ []) }
    ensures { PartsAppended ((corner_in contour.now 0 ∷ run_of contour.now start (size + 1)) ∷ []) starts.old
        points.old t starts.new points.new result }
{
    let first = append_point(contour, 0, points, t.corners);
    let count = append_run(contour, start, size + 1, points, first);
    end_part(starts, t, count)
}

// The parts of a fan about the contour's first corner are appended.
pub fn append_fan_parts(
    contour: &[[i32; 2]],
    limit: usize,
    starts: &mut [u32],
    points: &mut [[i32; 2]],
    t: Tally,
) -> Tally
    requires { (3 ≤ limit)
        × (limit < length contour.now)
        × (length contour.now ≤ max_contour)
        × RoomFor starts.old points.old t (fan_parts limit (corners_in contour.now)) }
    ensures { PartsAppended (fan_parts limit (corners_in contour.now)) starts.old points.old t starts.new
        points.new result }
{
    let triangles = contour.len() - 2;
    let part_count = ceil_div(triangles, limit - 2);
    let size = triangles / part_count;
    let extra = triangles % part_count;
    let mut tally = t;
    let mut start: usize = 1;
    for i in 0..part_count {
        let n = share(i, size, extra);
        tally = append_fan_part(contour, start, n, starts, points, tally);
        start += n;
    }
    tally
}
