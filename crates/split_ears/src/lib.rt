// A contour past the limit split by ear clipping (advanced/convex.rs, `append_ear_clipping_parts`):
// the parts of `ear_parts` of split/specs/Splitting.antt, appended to those gathered. The corners
// not yet clipped stand in a ring (specs/Rings.antt), which only `next_of` and `set_next` touch.
// Leans on split_chords and points.
#![tactic(auto)]

ghost use Rattle.std.specs.Prelude.{◌≡◌, ◌∷◌, [], ◌+◌, ◌<◌, ◌≤◌, length, get_or, set};
ghost use Rattle.table.specs.Table.{max_contour};
ghost use Rattle.points.specs.Points.{corner_in, Appended, corners_in};
ghost use Rattle.points.specs.Gathered.{RoomFor, PartsAppended};
ghost use Rattle.split.specs.Splitting.{ear_parts};
ghost use Rattle.split_ears.specs.Rings.{stepped, corners_after, Ring, Fresh};

use points::Tally;
use table::MAX_CONTOUR;

// The corner after corner i.
fn next_of(ring: &[u32], i: usize) -> usize
    requires { i < length ring.now }
    ensures { result ≡ get_or ring.now i 0 }
{
    ring[i] as usize
}

// After corner i comes corner j.
fn set_next(ring: &mut [u32], i: usize, j: usize)
    requires { (i < length ring.old) × (j < max_contour) }
    ensures { ring.new ≡ set ring.old i j }
{
    ring[i] = j as u32;
}

// The ring of n corners.
fn fill_ring(ring: &mut [u32], n: usize)
    requires { (0 < n) × (n ≤ max_contour) × (n ≤ length ring.old) }
    ensures { Fresh ring.new n }
{
    let last = n - 1;
    for i in 0..last {
        set_next(ring, i, i + 1);
    }
    set_next(ring, last, 0);
}

// The n corners after corner start, round the ring, are put after the first count points; answers
// the last of them.
fn append_after(
    contour: &[[i32; 2]],
    ring: &[u32],
    start: usize,
    n: usize,
    points: &mut [[i32; 2]],
    count: usize,
) -> usize
    requires { (start < length contour.now) × Ring ring.now (length contour.now) × (count + n ≤ length points.old) }
    ensures { (result ≡ stepped ring.now start n)
        × (result < length contour.now)
        × Appended (corners_after contour.now ring.now start n) points.old count points.new (count + n) }
{
    let mut end = start;
    for k in 0..n {
        end = next_of(ring, end);
        split_chords::append_point(contour, end, points, count + k);
    }
    end
}

// The ear of size triangles at corner start is appended, and its corners but the ends are clipped.
fn append_ear(
    contour: &[[i32; 2]],
    ring: &mut [u32],
    start: usize,
    size: usize,
    starts: &mut [u32],
    points: &mut [[i32; 2]],
    t: Tally,
) -> Tally
    requires { (start < length contour.now)
        × (length contour.now ≤ max_contour)
        × Ring ring.old (length contour.now)
        × RoomFor starts.old points.old t ((corner_in contour.now start ∷ corners_after contour.now ring.old start (size + 1)) ∷ []) }
    ensures { (ring.new ≡ set ring.old start (stepped ring.old start (size + 1)))
        × PartsAppended ((corner_in contour.now start ∷ corners_after contour.now ring.old start (size + 1)) ∷ [])
        starts.old points.old t starts.new points.new result }
{
    let first = split_chords::append_point(contour, start, points, t.corners);
    let n = size + 1;
    let end = append_after(contour, ring, start, n, points, first);
    set_next(ring, start, end);
    split_chords::end_part(starts, t, first + n)
}

// The ears of a contour with a fresh ring: each starts at the last corner of the one before.
fn append_ears(
    contour: &[[i32; 2]],
    ring: &mut [u32],
    limit: usize,
    starts: &mut [u32],
    points: &mut [[i32; 2]],
    t: Tally,
) -> Tally
    requires { (3 ≤ limit)
        × (limit < length contour.now)
        × (length contour.now ≤ max_contour)
        × Fresh ring.old (length contour.now)
        × RoomFor starts.old points.old t (ear_parts limit (corners_in contour.now)) }
    ensures { PartsAppended (ear_parts limit (corners_in contour.now)) starts.old points.old t starts.new
        points.new result }
{
    let triangles = contour.len() - 2;
    let part_count = split_chords::ceil_div(triangles, limit - 2);
    let size = triangles / part_count;
    let extra = triangles % part_count;
    let mut tally = t;
    let mut start: usize = 0;
    for i in 0..part_count {
        let n = split_chords::share(i, size, extra);
        tally = append_ear(contour, ring, start, n, starts, points, tally);
        start = next_of(ring, start);
    }
    tally
}

// The parts of ear clipping are appended.
pub fn append_ear_clipping_parts(
    contour: &[[i32; 2]],
    limit: usize,
    starts: &mut [u32],
    points: &mut [[i32; 2]],
    t: Tally,
) -> Tally
    requires { (3 ≤ limit)
        × (limit < length contour.now)
        × (length contour.now ≤ max_contour)
        × RoomFor starts.old points.old t (ear_parts limit (corners_in contour.now)) }
    ensures { PartsAppended (ear_parts limit (corners_in contour.now)) starts.old points.old t starts.new
        points.new result }
{
    let mut ring = [0u32; MAX_CONTOUR];
    fill_ring(&mut ring, contour.len());
    append_ears(contour, &mut ring, limit, starts, points, t)
}
