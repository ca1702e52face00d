// The pair job of two mesh files: an operation (0 sum, 1 difference), a left mesh file, a right
// mesh file. `make_job` takes any bytes and lent bytes that hold the longest job, and leaves on
// their front the job (pairs_job/specs/Job.antt) of the two files' split parts with their meshes'
// own bounds, or tells a fault and writes nothing. What is printed of it is `contours_text` of
// specs/Job.antt. Leans on mesh_pair, pairs_job and table_write.
#![tactic(auto)]

ghost use Rattle.std.specs.Prelude.{◌≡◌, map, ◌+◌, ◌*◌, ◌≤◌, length};
ghost use Rattle.io.specs.Counts.{IsPrefixLen};
ghost use Rattle.integers.specs.Word.{unsigned};
ghost use Rattle.table.specs.Table.{bounds_list, written};
ghost use Rattle.table_words.specs.Place.{put_words};
ghost use Rattle.meshes_job.specs.Job.{operation_fault, meshes_fault, job_of, job_answer};
ghost use Rattle.meshes_job.specs.Putting.{OperandRoom, OperandPut, words_from, JobRoom, JobPut};

use file_parts::{NUMBERS, STARTS};
use table::IntRect;
use table_words::{WORD, put_word, word_at};
use table_write::Stored;

// As many bytes as the longest job has: an operation, and of either operand four bounds, two
// counts, the starts and the corners' numbers.
pub const JOB: usize = WORD * (1 + 2 * (4 + 2 + STARTS + NUMBERS));

// Puts four bounds as words from word k on.
fn put_bounds(b: IntRect, k: usize, out: &mut [u8])
    requires { 4 * (k + 4) ≤ length out.old }
    ensures { out.new ≡ put_words k (map unsigned (bounds_list b)) out.old }
{
    let words = [
        integers::unsigned(b.min_x),
        integers::unsigned(b.max_x),
        integers::unsigned(b.min_y),
        integers::unsigned(b.max_y),
    ];
    table_write::write_words(&words, k, out);
}

// Puts an operand from word k on, bounds and a stored table, and answers the word after it.
fn put_operand(b: IntRect, starts: &[u32], corners: &[i32], k: usize, out: &mut [u8]) -> usize
    requires { OperandRoom starts.now corners.now k out.old }
    ensures { OperandPut b starts.now corners.now k out.old out.new result }
{
    let parts = starts.len();
    let numbers = corners.len();
    put_bounds(b, k, out);
    put_word(out, k + 4, (parts - 1) as u32);
    put_word(out, k + 5, corners::corner_count(corners) as u32);
    table_write::write_words(starts, k + 6, out);
    table_write::write_corners(corners, k + 6 + parts, out);
    k + 6 + parts + numbers
}

// Puts the job of an operation and two operands, each bounds, starts and corners' numbers, on the
// front of the lent bytes; answers how many bytes it has.
fn put_job(
    op: u32,
    left: IntRect,
    left_starts: &[u32],
    left_corners: &[i32],
    right: IntRect,
    right_starts: &[u32],
    right_corners: &[i32],
    out: &mut [u8],
) -> usize
    requires { JobRoom left_starts.now left_corners.now right_starts.now right_corners.now out.old }
    ensures { let l = words_from left left_starts.now left_corners.now in
        let m = words_from right right_starts.now right_corners.now in
        JobPut op l m out.old out.new result }
{
    put_word(out, 0, op);
    let at = put_operand(left, left_starts, left_corners, 1, out);
    let end = put_operand(right, right_starts, right_corners, at, out);
    WORD * end
}

// Whether there is an operation: 13 where there is none; 0 for no fault.
fn operation_fault(bytes: &[u8]) -> u32
    ensures { result ≡ operation_fault bytes.now }
{
    if bytes.len() < WORD {
        return integers::fault::FILE;
    }
    if word_at(bytes, 0) > pairs_job::DIFFERENCE {
        return integers::fault::FILE;
    }
    0
}

// The pair job of two mesh files on the front of the lent bytes, with how many there are; or a
// fault: 13 for fewer than four bytes or another operation, then the left file's, then the right's
// (13, 1, 2, 3, 4, 5, 6 or 11).
pub fn make_job(bytes: &[u8], out: &mut [u8; JOB]) -> Stored
    ensures told { result ≡ job_answer bytes.now }
    ensures bytes { out.new ≡ written (meshes_fault bytes.now) (job_of bytes.now) out.old }
    ensures counted { IsPrefixLen result.length out.new }
{
    let fault = operation_fault(bytes);
    if fault != 0 {
        return Stored { fault, length: 0 };
    }
    let mut left_starts = [0u32; STARTS];
    let mut left_corners = [0i32; NUMBERS];
    let mut right_starts = [0u32; STARTS];
    let mut right_corners = [0i32; NUMBERS];
    let two = mesh_pair::take_two(
        &bytes[WORD..],
        &mut left_starts,
        &mut left_corners,
        &mut right_starts,
        &mut right_corners,
    );
    if two.fault != 0 {
        return Stored {
            fault: two.fault,
            length: 0,
        };
    }
    let op = word_at(bytes, 0);
    let left = two.left;
    let right = two.right;
    let size = put_job(
        op,
        left.bounds,
        &left_starts[..left.parts + 1],
        file_parts::front(&left_corners, left.corners),
        right.bounds,
        &right_starts[..right.parts + 1],
        file_parts::front(&right_corners, right.corners),
        out,
    );
    Stored {
        fault: two.fault,
        length: size,
    }
}
