// The part table's calls, exported to C: one thin function over each, with no `requires`. The
// package (./package) and the runs beside the judge (oracle/beside) link them. Slices pass as a
// pointer and a length. The answer and each lent buffer as the call returns equal the definitions
// of table_read, table_write and table/specs/Shown.antt. Reading returns the table's `Counts` as
// they are; what writing and showing answer is laid out for C (specs/Told.antt), and as an exported
// function returns no slice, the part shown is told by its place in the lent corners. Leans on
// table_read, table_write and table_shown.
#![tactic(auto)]

ghost use Rattle.std.specs.Prelude.{◌≡◌, false, cond, ◌+◌, ◌*◌, ◌<◌, get_or};
ghost use Rattle.std.proofs.Math.Seq.{slice};
ghost use Rattle.table.specs.Table.{table_broken, part_count};
ghost use Rattle.table.specs.Shown.{shown_part};
ghost use Rattle.table_read.specs.Read.{counts_read, starts_read, corners_read};
ghost use Rattle.table_write.specs.Written.{answer_written, bytes_written};
ghost use Rattle.boundary_table.specs.Told.{told_stored, told_shown};

use table::Counts;

// A fault number, 0 for none, and how many bytes were written.
#[repr(C)]
#[derive(Clone, Copy)]
pub struct ToldLength {
    pub fault: u32,
    pub length: usize,
}

// A fault number, 0 for none, and the part shown: where its numbers begin in the lent corners, and
// how many they are.
#[repr(C)]
#[derive(Clone, Copy)]
pub struct ToldPart {
    pub fault: u32,
    pub offset: usize,
    pub length: usize,
}

// table_read::read_table.
#[unsafe(no_mangle)]
pub extern "C" fn bezinkwolu_read_table(
    bytes: &[u8],
    starts: &mut [u32],
    corners: &mut [i32],
) -> Counts
    ensures told { result ≡ counts_read bytes.now starts.old corners.old }
    ensures starts { starts.new ≡ starts_read bytes.now starts.old corners.old }
    ensures corners { corners.new ≡ corners_read bytes.now starts.old corners.old }
{
    table_read::read_table(bytes, starts, corners)
}

// table_write::write_table.
#[unsafe(no_mangle)]
pub extern "C" fn bezinkwolu_write_table(
    starts: &[u32],
    corners: &[i32],
    bytes: &mut [u8],
) -> ToldLength
    ensures told { result ≡ told_stored (answer_written starts.now corners.now bytes.old) }
    ensures bytes { bytes.new ≡ bytes_written starts.now corners.now bytes.old }
{
    let stored = table_write::write_table(starts, corners, bytes);
    ToldLength {
        fault: stored.fault,
        length: stored.length,
    }
}

// How many numbers of the corners stand before part k's.
fn first_number(starts: &[u32], corners: &[i32], k: usize) -> usize
    requires { (table_broken starts.now corners.now ≡ false) × (k < part_count starts.now) }
    ensures { result ≡ 2 * get_or starts.now k 0 }
{
    corners::front(corners, starts[k] as usize).len()
}

// table_shown::show_part: the part shown by where it lies in the lent corners of the operand asked
// for, never a copy.
#[unsafe(no_mangle)]
pub extern "C" fn bezinkwolu_show_part<'a>(
    left_starts: &[u32],
    left_corners: &'a [i32],
    right_starts: &[u32],
    right_corners: &'a [i32],
    right: bool,
    k: u32,
) -> ToldPart
    ensures { let ls = left_starts.now in
        let lc = left_corners.now in
        let rs = right_starts.now in
        let rc = right_corners.now in
        (result ≡ told_shown ls lc rs rc right k)
        × (slice result.offset (result.offset + result.length) (cond right rc lc) ≡ shown_part ls lc rs rc right k) }
{
    let mut fault: u32 = 0;
    let part = table_shown::show_part(
        left_starts,
        left_corners,
        right_starts,
        right_corners,
        right,
        k,
        &mut fault,
    );
    if fault != 0 {
        return ToldPart {
            fault: fault,
            offset: 0,
            length: 0,
        };
    }
    if right {
        return ToldPart {
            fault: 0,
            offset: first_number(right_starts, right_corners, k as usize),
            length: part.len(),
        };
    }
    ToldPart {
        fault: 0,
        offset: first_number(left_starts, left_corners, k as usize),
        length: part.len(),
    }
}
