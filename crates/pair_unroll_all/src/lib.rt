// All parts of a sound table unrolled to points, one after another, after walks that are there
// (`unroll_all`): walk n is the points from firsts[n] up to firsts[n + 1]. Or it is told that some
// winding leaves 64 bits (fault 8), and then what the buffers hold is of no matter. Leans on
// pair_unroll and points.
#![tactic(auto)]

ghost use Rattle.std.specs.Prelude.{[], get_or};
ghost use Rattle.table.specs.Table.{table_parts};
ghost use Rattle.pair_unroll.specs.Unroll.{UnrolledBy};
ghost use Rattle.pair_unroll_all.specs.Parts.{PartAt, Unrollables, AllUnrolled};

// Part p unrolled after the first `from` points.
fn unroll_part(
    starts: &[u32],
    corners: &[i32],
    p: usize,
    reflected: bool,
    points: &mut [[i32; 2]],
    from: usize,
) -> Option<usize>
    requires { PartAt starts.now corners.now p points.old from }
    ensures { let part = get_or (table_parts starts.now corners.now) p [] in
        UnrolledBy reflected part points.old from points.new result }
{
    let a = starts[p] as usize;
    let e = starts[p + 1] as usize;
    pair_unroll::unroll(corners::part(corners, a, e), reflected, points, from)
}

// All parts unrolled after the first `done` walks, which end at firsts[done]; answers whether some
// winding leaves 64 bits.
pub fn unroll_all(
    starts: &[u32],
    corners: &[i32],
    reflected: bool,
    done: usize,
    points: &mut [[i32; 2]],
    firsts: &mut [u32],
) -> bool
    requires { Unrollables starts.now corners.now done points.old firsts.old }
    ensures { let parts = table_parts starts.now corners.now in
        AllUnrolled reflected parts done points.old firsts.old points.new firsts.new result }
{
    let parts = starts.len() - 1;
    let mut count = firsts[done] as usize;
    for p in 0..parts {
        let Some(n) = unroll_part(starts, corners, p, reflected, points, count) else {
            return true;
        };
        count = n;
        points::put_start(firsts, done + p + 1, count);
    }
    false
}
