// A pair job before its lines: `begin_job` takes any bytes, tells the job's fault or how many parts
// its operands have and the result's bounds, and leaves the walks of both operands, with a number a
// point, in its caller's work buffers, which pair_lines puts into lines (`Begins` of
// specs/Begun.antt, with pairs_job's `job_fault`, `left_of` and `right_of`). Of a job that is
// refused nothing is said of the buffers. Leans on pairs_job, minkowski_faults, minkowski_work,
// pair_numbers and a law of minkowski_keyed.
#![tactic(auto)]

ghost use Rattle.std.specs.Prelude.{◌≡◌};
ghost use Rattle.faults.specs.Told.{told};
ghost use Rattle.minkowski_work.specs.Scratch.{call_of};
ghost use Rattle.pairs_job.specs.Job.{job_fault};
ghost use Rattle.pairs_work.specs.Begun.{Large, Places, Shapely, job_call, PairsTold, refused_begun, Begins, CallBegins};

use faults::Fault;
use minkowski::Operation;
use pairs_job::{LEFT, LEFT_BOUNDS};
use table::IntRect;
use table_words::word_at;

// The starts of any operand.
const STARTS: usize = table::MAX_PARTS + 1;

// The points and the firsts of any two operands' walks: of each 8,192 corners, and one more point
// for each of 2,048 parts.
pub const POINTS: usize = 2 * (table::MAX_CORNERS + table::MAX_PARTS);

pub const FIRSTS: usize = 2 * STARTS;

// What a job answers before its lines: the fault number, 0 for none, how many parts each operand
// has, and the result's bounds; all 0 where it is refused.
#[derive(Clone, Copy)]
pub struct Begun {
    pub fault: u32,
    pub left: usize,
    pub right: usize,
    pub bounds: IntRect,
}

// A refusal: its number and zeros.
fn refused(fault: u32) -> Begun
    ensures { result ≡ refused_begun fault }
{
    Begun {
        fault,
        left: 0,
        right: 0,
        bounds: IntRect {
            min_x: 0,
            max_x: 0,
            min_y: 0,
            max_y: 0,
        },
    }
}

// The first fault of two operands in the order of pairs up to 20; where there is none, the work
// buffers hold the walks of both.
fn pairs_fault(
    operation: Operation,
    left_starts: &[u32],
    left_corners: &[i32],
    right_starts: &[u32],
    right_corners: &[i32],
    points: &mut [[i32; 2]],
    firsts: &mut [u32],
) -> Result<(), Fault>
    requires { Large points.old firsts.old }
    ensures { let x = call_of operation left_starts.now left_corners.now right_starts.now right_corners.now in
        PairsTold x points.new firsts.new (told result) }
{
    minkowski_faults::operands_fault(
        left_starts,
        left_corners,
        operation.left,
        right_starts,
        right_corners,
        operation.right,
    )?;
    minkowski_work::walks_fault(
        operation,
        left_starts,
        left_corners,
        right_starts,
        right_corners,
        points,
        firsts,
    )
}

// What the pairs of two operands answer before their lines; where there is no fault, the points
// have their numbers.
pub fn begin_operands(
    operation: Operation,
    left_starts: &[u32],
    left_corners: &[i32],
    right_starts: &[u32],
    right_corners: &[i32],
    points: &mut [[i32; 2]],
    firsts: &mut [u32],
    numbers: &mut [u64],
) -> Begun
    requires { Places points.old firsts.old numbers.old }
    ensures { let x = call_of operation left_starts.now left_corners.now right_starts.now right_corners.now in
        CallBegins x points.new firsts.new numbers.new result }
{
    let judged = pairs_fault(
        operation,
        left_starts,
        left_corners,
        right_starts,
        right_corners,
        points,
        firsts,
    );
    if let Err(fault) = judged {
        return refused(fault.number());
    }
    let left = left_starts.len() - 1;
    let right = right_starts.len() - 1;
    pair_numbers::number_walks(firsts, points, left, right, numbers);
    let bounds = minkowski_faults::result_bounds(
        operation.left,
        operation.right,
        operation.reflected,
    );
    Begun {
        fault: 0,
        left,
        right,
        bounds,
    }
}

// What a job without a fault of its shape answers before its lines: both tables are read into
// places for any table within the limits.
fn begin_shaped(
    bytes: &[u8],
    left_starts: &mut [u32],
    left_corners: &mut [i32],
    right_starts: &mut [u32],
    right_corners: &mut [i32],
    points: &mut [[i32; 2]; POINTS],
    firsts: &mut [u32; FIRSTS],
    numbers: &mut [u64; POINTS],
) -> Begun
    requires { Shapely bytes.now left_starts.old left_corners.old right_starts.old right_corners.old }
    ensures { Begins (job_call bytes.now) (job_fault bytes.now) points.new firsts.new numbers.new result }
{
    let place = pairs_job::right_place(bytes);
    let l = word_at(bytes, LEFT) as usize;
    let m = word_at(bytes, LEFT + 1) as usize;
    let r = word_at(bytes, place) as usize;
    let n = word_at(bytes, place + 1) as usize;
    pairs_job::read_operand(bytes, LEFT, left_starts, left_corners);
    pairs_job::read_operand(bytes, place, right_starts, right_corners);
    let operation = Operation {
        reflected: word_at(bytes, 0) == pairs_job::DIFFERENCE,
        left: pairs_job::bounds_at(bytes, LEFT_BOUNDS),
        right: pairs_job::bounds_at(bytes, place - 4),
    };
    begin_operands(
        operation,
        &left_starts[..l + 1],
        corners::front(left_corners, m),
        &right_starts[..r + 1],
        corners::front(right_corners, n),
        points,
        firsts,
        numbers,
    )
}

// What a job answers before its lines.
pub fn begin_job(
    bytes: &[u8],
    points: &mut [[i32; 2]; POINTS],
    firsts: &mut [u32; FIRSTS],
    numbers: &mut [u64; POINTS],
) -> Begun
    ensures { Begins (job_call bytes.now) (job_fault bytes.now) points.new firsts.new numbers.new result }
{
    if let Err(fault) = pairs_job::shape_fault(bytes) {
        return refused(fault.number());
    }
    let mut left_starts = [0u32; STARTS];
    let mut left_corners = [0i32; corners::WIDTH * table::MAX_CORNERS];
    let mut right_starts = [0u32; STARTS];
    let mut right_corners = [0i32; corners::WIDTH * table::MAX_CORNERS];
    begin_shaped(
        bytes,
        &mut left_starts,
        &mut left_corners,
        &mut right_starts,
        &mut right_corners,
        points,
        firsts,
        numbers,
    )
}
