// The text of a pair job handed over piece by piece: `next_chunk` takes any bytes and how many
// pieces have been handed over, and puts as many of the next ones as lent bytes have room for. It
// keeps nothing between calls and its work arrays are its own. What the pieces are and which of
// them one call puts is specs/Pieces.antt; that calls from 0 to the end hand over the whole text,
// `pairs_text`, is specs/HandedOver.antt. Leans on pairs_work, pair_lines, minkowski_counted and
// text.
#![tactic(auto)]

ghost use Rattle.std.specs.Prelude.{◌≡◌, ◌≤◌, length, get_or};
ghost use mathlib.Core.List.{[], flatten};
ghost use Rattle.io.specs.Counts.{IsPrefixLen};
ghost use Rattle.integers.specs.Lists.{overlay};
ghost use Rattle.text.specs.Put.{PutText};
ghost use Rattle.pairs_text.specs.Pieces.{chunk_of, next_piece, more_of};
ghost use Rattle.pairs_text.specs.Walks.{first_room, first_in, pieces_in, JobStarted, Fitting, Workable, Handed};

use pairs_work::{Begun, FIRSTS, POINTS};

// Room for many lines, so that judging a job and unrolling its walks again at each call costs
// little beside them.
pub const ROOM: usize = 1048576;

// Room for any piece, the longest line's: 47 bytes, and 26 for each corner of a pair.
const LINE: usize = 47 + 26 * (2 * table::MAX_CONTOUR);

// The numbers of a work buffer that holds the corners of any pair.
const WORK: usize = corners::WIDTH * (2 * table::MAX_CONTOUR);

// What one call handed over: how many bytes, how many pieces have been handed over with them, and
// whether more are left.
#[derive(Clone, Copy)]
pub struct Chunk {
    pub size: usize,
    pub next: usize,
    pub more: bool,
}

// Puts the head line, or the refusal, on the front of the lent bytes and answers how many bytes it
// has. Only the head line wants the corners counted.
fn put_first(
    begun: Begun,
    firsts: &[u32],
    points: &[[i32; 2]],
    numbers: &[u64],
    out: &mut [u8],
) -> usize
    requires { JobStarted begun firsts.now points.now numbers.now × (first_room ≤ length out.old) }
    ensures { PutText (first_in begun firsts.now points.now) 0 out.old out.new result }
{
    let Begun {
        fault,
        left,
        right,
        bounds,
    } = begun;
    if fault != 0 {
        return text::put_refusal(fault, out, 0);
    }
    let corners = minkowski_counted::count_keyed(firsts, points, numbers, left, right);
    pair_lines::put_head((left * right) as u64, corners as u64, bounds, out)
}

// Puts piece k on the front of the lent bytes and answers how many bytes it has.
fn put_piece(
    begun: Begun,
    firsts: &[u32],
    points: &[[i32; 2]],
    numbers: &[u64],
    k: usize,
    work: &mut [i32],
    out: &mut [u8],
) -> usize
    requires { Fitting begun firsts.now points.now numbers.now k work.old out.old }
    ensures { PutText (get_or (pieces_in begun firsts.now points.now) k []) 0 out.old out.new result }
{
    if k == 0 {
        return put_first(begun, firsts, points, numbers, out);
    }
    let Begun { left, right, .. } = begun;
    let p = (k - 1) / right;
    let q = (k - 1) % right;
    pair_lines::put_line(firsts, points, numbers, left, right, p, q, work, out)
}

// Puts pieces from the one at `from` on, one after another, as long as there is room for any and
// pieces are left.
fn put_pieces(
    begun: Begun,
    firsts: &[u32],
    points: &[[i32; 2]],
    numbers: &[u64],
    from: usize,
    work: &mut [i32],
    out: &mut [u8],
) -> Chunk
    requires { Workable begun firsts.now points.now numbers.now work.old }
    ensures { Handed (pieces_in begun firsts.now points.now) from out.old out.new result }
{
    let pieces = 1 + begun.left * begun.right;
    let mut size: usize = 0;
    for k in from..pieces {
        if out.len() - size < LINE {
            return Chunk {
                size,
                next: k,
                more: true,
            };
        }
        size += put_piece(begun, firsts, points, numbers, k, work, &mut out[size..]);
    }
    Chunk {
        size,
        next: from.max(pieces),
        more: false,
    }
}

// The same of a job begun, whose walks and their numbers lie in places for any two operands.
fn put_begun(
    begun: Begun,
    firsts: &[u32; FIRSTS],
    points: &[[i32; 2]; POINTS],
    numbers: &[u64; POINTS],
    from: usize,
    out: &mut [u8],
) -> Chunk
    requires { JobStarted begun firsts.now points.now numbers.now }
    ensures { Handed (pieces_in begun firsts.now points.now) from out.old out.new result }
{
    let mut work = [0i32; WORK];
    put_pieces(begun, firsts, points, numbers, from, &mut work, out)
}

// Hands over the pieces of a job's text after the first `from`, as many as there is room for, on
// the front of the lent bytes; past them these keep what they held. Past the last piece nothing is
// handed over, and `next` is `from`. The last clause says again, in io's words, that the bytes
// stand within the lent ones, for a caller that lends them on.
pub fn next_chunk(bytes: &[u8], from: usize, out: &mut [u8; ROOM]) -> Chunk
    ensures size { result.size ≡ length (flatten (chunk_of bytes.now from)) }
    ensures next { result.next ≡ next_piece bytes.now from }
    ensures more { result.more ≡ more_of bytes.now from }
    ensures text { out.new ≡ overlay (flatten (chunk_of bytes.now from)) out.old }
    ensures counted { IsPrefixLen result.size out.new }
{
    let mut points = [[0i32; 2]; POINTS];
    let mut firsts = [0u32; FIRSTS];
    let mut numbers = [0u64; POINTS];
    let begun = pairs_work::begin_job(bytes, &mut points, &mut firsts, &mut numbers);
    put_begun(begun, &firsts, &points, &numbers, from, out)
}
