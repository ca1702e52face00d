// How many corners all pairs of two operands' walks have (`count_all`), for fault 21 where the
// bound on corners does not tell: each pair is merged into one work buffer (`count_pair`), by the
// same code that puts them into the lent one. Leans on minkowski_rows and pair_walks' definitions.
#![tactic(auto)]

ghost use Rattle.std.specs.Prelude.{◌≡◌, ◌+◌, ◌*◌, ◌<◌, ◌≤◌, ◌^◌, length};
ghost use mathlib.Core.List.{flatten};
ghost use Rattle.table.specs.Table.{max_contour};
ghost use Rattle.pair_merge.specs.Putting.{CornersPut};
ghost use Rattle.pair_walks.specs.Walks.{Walks, contours_in, pair_in};
ghost use Rattle.minkowski_rows.specs.Rows.{merged_row_in};

// How many corners the contour of left walk p and right walk q has, which is put on the front of
// the work buffer.
fn count_pair(
    firsts: &[u32],
    points: &[[i32; 2]],
    left: usize,
    right: usize,
    p: usize,
    q: usize,
    work: &mut [i32],
) -> usize
    requires { Walks firsts.now points.now (left + right) × (p < left) × (q < right) × (4 * max_contour ≤ length work.old) }
    ensures { CornersPut (pair_in firsts.now points.now left right p q) work.old 0 work.new result }
{
    minkowski_rows::merge_walks(firsts, points, left + right, p, left + q, work, 0)
}

// How many those of left walk p and each right walk have.
fn count_row(
    firsts: &[u32],
    points: &[[i32; 2]],
    left: usize,
    right: usize,
    p: usize,
    work: &mut [i32],
) -> usize
    requires walks { Walks firsts.now points.now (left + right) × (p < left) × (4 * max_contour ≤ length work.old) }
    requires few { length (flatten (merged_row_in firsts.now points.now left right p)) < 2 ^ 32 }
    ensures { result ≡ length (flatten (merged_row_in firsts.now points.now left right p)) }
{
    let mut total: usize = 0;
    for q in 0..right {
        total += count_pair(firsts, points, left, right, p, q, work);
    }
    total
}

// How many corners the contours of all pairs have.
pub fn count_all(firsts: &[u32], points: &[[i32; 2]], left: usize, right: usize) -> usize
    requires { Walks firsts.now points.now (left + right) × (length (flatten (contours_in firsts.now points.now left right)) < 2 ^ 32) }
    ensures { result ≡ length (flatten (contours_in firsts.now points.now left right)) }
{
    let mut work = [0i32; corners::WIDTH * (2 * table::MAX_CONTOUR)];
    let mut total: usize = 0;
    for p in 0..left {
        total += count_row(firsts, points, left, right, p, &mut work);
    }
    total
}
