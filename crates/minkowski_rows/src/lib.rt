// All pairs of two operands' walks in one buffer (int/minkowski.rs, `sum_parts`; pair_walks has
// where walks lie): `append_all` merges each left walk with each right one in order and puts the
// contours on the front of lent starts and corners; `merge_walks` merges any two of them. By the
// law `merged-pairs` of pair_walks these are the pairs' contours. Leans on pair_merge, points and
// pair_walks' definitions.
#![tactic(auto)]

ghost use Rattle.std.specs.Prelude.{◌≡◌, ◌∷◌, [], ◌+◌, ◌<◌};
ghost use Rattle.pair_merge.specs.Putting.{RoomAfter, CornersPut};
ghost use Rattle.pair_walks.specs.Walks.{Walks, contours_in};
ghost use Rattle.minkowski_rows.specs.Rows.{merged_in, merged_row_in, PairsRoom, PairsPut, AllPut};

// The contour of walks m and n of `count` is put after the first `at` corners; answers how many
// stand there then.
pub fn merge_walks(
    firsts: &[u32],
    points: &[[i32; 2]],
    count: usize,
    m: usize,
    n: usize,
    out: &mut [i32],
    at: usize,
) -> usize
    requires { Walks firsts.now points.now count × (m < count) × (n < count) × RoomAfter (merged_in firsts.now points.now count m n) out.old at }
    ensures { CornersPut (merged_in firsts.now points.now count m n) out.old at out.new result }
{
    let from = firsts[m] as usize;
    let to = firsts[m + 1] as usize;
    let begin = firsts[n] as usize;
    let end = firsts[n + 1] as usize;
    pair_merge::append_pair(&points[from..to], &points[begin..end], out, at)
}

// The contour of walks p and q of `count` is put as contour n.
fn append_one(
    firsts: &[u32],
    points: &[[i32; 2]],
    count: usize,
    p: usize,
    q: usize,
    starts: &mut [u32],
    n: usize,
    out: &mut [i32],
    at: usize,
) -> usize
    requires { Walks firsts.now points.now count
        × (p < count)
        × (q < count)
        × PairsRoom (merged_in firsts.now points.now count p q ∷ []) starts.old n out.old at }
    ensures { let new = merged_in firsts.now points.now count p q ∷ [] in
        PairsPut new starts.old n out.old at starts.new (n + 1) out.new result }
{
    let k = merge_walks(firsts, points, count, p, q, out, at);
    points::put_start(starts, n + 1, k);
    k
}

// The contours of left walk p and each right walk are put from contour n on.
fn append_row(
    firsts: &[u32],
    points: &[[i32; 2]],
    left: usize,
    right: usize,
    p: usize,
    starts: &mut [u32],
    n: usize,
    out: &mut [i32],
    at: usize,
) -> usize
    requires { Walks firsts.now points.now (left + right)
        × (p < left)
        × PairsRoom (merged_row_in firsts.now points.now left right p) starts.old n out.old at }
    ensures { let new = merged_row_in firsts.now points.now left right p in
        PairsPut new starts.old n out.old at starts.new (n + right) out.new result }
{
    let count = left + right;
    let mut k = at;
    for q in 0..right {
        k = append_one(firsts, points, count, p, left + q, starts, n + q, out, k);
    }
    k
}

// The contours of all pairs, each left walk with each right one in order, on the front of the lent
// starts and corners; answers how many corners they have.
pub fn append_all(
    firsts: &[u32],
    points: &[[i32; 2]],
    left: usize,
    right: usize,
    starts: &mut [u32],
    out: &mut [i32],
) -> usize
    requires { Walks firsts.now points.now (left + right) × PairsRoom (contours_in firsts.now points.now left right) starts.old 0 out.old 0 }
    ensures { let all = contours_in firsts.now points.now left right in
        AllPut all starts.old out.old starts.new out.new result }
{
    points::put_start(starts, 0, 0);
    let mut k: usize = 0;
    let mut n: usize = 0;
    for p in 0..left {
        k = append_row(firsts, points, left, right, p, starts, n, out, k);
        n += right;
    }
    k
}
