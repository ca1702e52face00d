// All pairs of two operands' walks merged by numbers (pair_chains; int/minkowski.rs, `sum_parts`):
// `append_keyed` puts their contours, four pairs side by side, on the front of lent starts and
// corners. What is put is what minkowski_rows puts. Leans on minkowski_order, pair_chains,
// minkowski_rows (definitions and laws of contours put) and convex_gather.
#![tactic(auto)]

ghost use Rattle.std.specs.Prelude.{◌∷◌, [], ◌+◌, ◌*◌, ◌-◌, ◌<◌, ◌≤◌, ◌^◌, length};
ghost use Rattle.pair_walks.specs.Walks.{contours_in};
ghost use Rattle.pair_numbers.specs.Numbers.{Keyed};
ghost use Rattle.pair_merge.specs.Putting.{CornersPut};
ghost use Rattle.minkowski_rows.specs.Rows.{PairsRoom, PairsPut, AllPut};
ghost use Rattle.minkowski_order.specs.Order.{pair_contour_at, most_edges, Used, More};
ghost use Rattle.minkowski_chains.specs.Contours.{four_from, work_corners, PairRooms, PutOn, PutTo};

use minkowski_order::Place;

// The most points of two operands whose pairs have short work buffers, the numbers of such a buffer
// and those of one that holds the corners of any pair.
const SMALL: usize = 512;

const SMALL_WORK: usize = corners::WIDTH * SMALL;

const WORK: usize = corners::WIDTH * (2 * table::MAX_CONTOUR);

// The first corners of a work buffer are put after the first `at` of `out`. One after another, for
// the buffers may lie anywhere, and the copy of a slice would ask for memmove.
fn copy_work(work: &[i32], count: usize, out: &mut [i32], at: usize)
    requires { (2 * count ≤ length work.now) × (2 * (at + count) ≤ length out.old) }
    ensures { CornersPut (work_corners count work.now) out.old at out.new (at + count) }
{
    for k in 0..count {
        corners::put_corner(out, at + k, corners::corner_at(work, k));
    }
}

// The first corners of a work buffer are put as the contour after the first n; answers how many
// corners stand there then.
fn append_copied(
    work: &[i32],
    count: usize,
    starts: &mut [u32],
    n: usize,
    out: &mut [i32],
    at: usize,
) -> usize
    requires { (2 * count ≤ length work.now) × PairsRoom (work_corners count work.now ∷ []) starts.old n out.old at }
    ensures { let new = work_corners count work.now ∷ [] in
        PairsPut new starts.old n out.old at starts.new (n + 1) out.new result }
{
    copy_work(work, count, out, at);
    let k = at + count;
    points::put_start(starts, n + 1, k);
    k
}

// The contour of the pair at a place is put.
fn append_next(
    firsts: &[u32],
    points: &[[i32; 2]],
    numbers: &[u64],
    left: usize,
    right: usize,
    s: Place,
    starts: &mut [u32],
    out: &mut [i32],
) -> Place
    requires { Used firsts.now points.now numbers.now left right
        × More left right 1 s
        × PairsRoom (pair_contour_at firsts.now points.now left right s.n ∷ []) starts.old s.n out.old s.k }
    ensures { let new = pair_contour_at firsts.now points.now left right s.n ∷ [] in
        PutOn left right 1 new s starts.old out.old result starts.new out.new }
{
    let x = minkowski_order::pair_next(firsts, points, numbers, left, right, s);
    let k = pair_chains::merge_one(points, numbers, x, out, s.k);
    points::put_start(starts, s.n + 1, k);
    minkowski_order::after(s, left, right, k)
}

// The contours of the four pairs from a place on are put: merged side by side, the first in its
// place and the others by way of work buffers.
fn append_four(
    firsts: &[u32],
    points: &[[i32; 2]],
    numbers: &[u64],
    left: usize,
    right: usize,
    s: Place,
    wb: &mut [i32],
    wc: &mut [i32],
    wd: &mut [i32],
    starts: &mut [u32],
    out: &mut [i32],
) -> Place
    requires { Used firsts.now points.now numbers.now left right
        × More left right 4 s
        × PairRooms points.now wb.old wc.old wd.old
        × PairsRoom (four_from (contours_in firsts.now points.now left right) s.n) starts.old s.n out.old s.k }
    ensures { let new = four_from (contours_in firsts.now points.now left right) s.n in
        PutOn left right 4 new s starts.old out.old result starts.new out.new }
{
    let f = minkowski_order::four_next(firsts, points, numbers, left, right, s);
    let n = s.n;
    let r = pair_chains::merge_four(points, numbers, f.x, out, s.k, wb, wc, wd);
    points::put_start(starts, n + 1, r.a);
    let b = append_copied(wb, r.b, starts, n + 1, out, r.a);
    let c = append_copied(wc, r.c, starts, n + 2, out, b);
    let d = append_copied(wd, r.d, starts, n + 3, out, c);
    Place { k: d, ..f.s }
}

// The contours of all pairs but the last few are put, four at a time.
fn append_fours(
    firsts: &[u32],
    points: &[[i32; 2]],
    numbers: &[u64],
    left: usize,
    right: usize,
    wb: &mut [i32],
    wc: &mut [i32],
    wd: &mut [i32],
    starts: &mut [u32],
    out: &mut [i32],
) -> Place
    requires { Used firsts.now points.now numbers.now left right
        × PairRooms points.now wb.old wc.old wd.old
        × PairsRoom (contours_in firsts.now points.now left right) starts.old 0 out.old 0 }
    ensures { let all = contours_in firsts.now points.now left right in
        PutTo left right all starts.old out.old result starts.new out.new }
{
    let all = left * right;
    let mut s = Place {
        p: 0,
        q: 0,
        n: 0,
        k: 0,
    };
    while s.n + 3 < all {
        s = append_four(
            firsts, points, numbers, left, right, s, wb, wc, wd, starts, out,
        );
    }
    s
}

// The contours of all pairs are put on the front; of buffers cut to the points in use.
fn append_used(
    firsts: &[u32],
    points: &[[i32; 2]],
    numbers: &[u64],
    left: usize,
    right: usize,
    wb: &mut [i32],
    wc: &mut [i32],
    wd: &mut [i32],
    starts: &mut [u32],
    out: &mut [i32],
) -> usize
    requires { Used firsts.now points.now numbers.now left right
        × PairRooms points.now wb.old wc.old wd.old
        × PairsRoom (contours_in firsts.now points.now left right) starts.old 0 out.old 0 }
    ensures { let all = contours_in firsts.now points.now left right in
        AllPut all starts.old out.old starts.new out.new result }
{
    points::put_start(starts, 0, 0);
    let all = left * right;
    let mut s = append_fours(
        firsts, points, numbers, left, right, wb, wc, wd, starts, out,
    );
    while s.n < all {
        s = append_next(firsts, points, numbers, left, right, s, starts, out);
    }
    s.k
}

// In work buffers of N numbers, which hold the corners of any pair. It is put into no caller, so
// that each size has a frame of its own: small ones are faster to set up.
#[inline(never)]
fn append_in<const N: usize>(
    firsts: &[u32],
    points: &[[i32; 2]],
    numbers: &[u64],
    left: usize,
    right: usize,
    starts: &mut [u32],
    out: &mut [i32],
) -> usize
    requires used { Used firsts.now points.now numbers.now left right }
    requires work { (2 * most_edges points.now ≤ N) × (N < 2 ^ 32) }
    requires room { PairsRoom (contours_in firsts.now points.now left right) starts.old 0 out.old 0 }
    ensures { let all = contours_in firsts.now points.now left right in
        AllPut all starts.old out.old starts.new out.new result }
{
    let mut wb = [0i32; N];
    let mut wc = [0i32; N];
    let mut wd = [0i32; N];
    append_used(
        firsts, points, numbers, left, right, &mut wb, &mut wc, &mut wd, starts, out,
    )
}

// The contours of all pairs, each left walk with each right one in order, on the front of the lent
// starts and corners; answers how many corners they have. Few points have short work buffers, which
// are faster to set up.
pub fn append_keyed(
    firsts: &[u32],
    points: &[[i32; 2]],
    numbers: &[u64],
    left: usize,
    right: usize,
    starts: &mut [u32],
    out: &mut [i32],
) -> usize
    requires keyed { Keyed firsts.now points.now numbers.now left right }
    requires room { PairsRoom (contours_in firsts.now points.now left right) starts.old 0 out.old 0 }
    ensures { let all = contours_in firsts.now points.now left right in
        AllPut all starts.old out.old starts.new out.new result }
{
    let n = minkowski_order::first(firsts, left + right);
    let points = &points[..n];
    let numbers = &numbers[..n];
    if n <= SMALL {
        append_in::<SMALL_WORK>(firsts, points, numbers, left, right, starts, out)
    } else {
        append_in::<WORK>(firsts, points, numbers, left, right, starts, out)
    }
}
