// What boundary_table promises, to C.
ghost use Rattle.std.specs.Prelude.{◌≡◌, cond, ◌+◌, ◌<◌};
ghost use Rattle.std.proofs.Math.Seq.{slice};
ghost use Rattle.table.specs.Shown.{shown_part};
ghost use Rattle.table_read.specs.Read.{counts_read, starts_read, corners_read};
ghost use Rattle.table_write.specs.Written.{answer_written, bytes_written};
ghost use Rattle.boundary_table.specs.Told.{told_stored, told_shown};

use boundary_table::{ToldLength, ToldPart};
use table::Counts;

// table_read::read_table.
#[unsafe(no_mangle)]
pub extern "C" fn bezinkwolu_read_table(
    bytes: &[u8],
    starts: &mut [u32],
    corners: &mut [i32],
) -> Counts
    ensures told { result ≡ counts_read bytes.now starts.old corners.old }
    ensures starts { starts.new ≡ starts_read bytes.now starts.old corners.old }
    ensures corners { corners.new ≡ corners_read bytes.now starts.old corners.old }
{
    boundary_table::bezinkwolu_read_table(bytes, starts, corners)
}

// table_write::write_table.
#[unsafe(no_mangle)]
pub extern "C" fn bezinkwolu_write_table(
    starts: &[u32],
    corners: &[i32],
    bytes: &mut [u8],
) -> ToldLength
    ensures told { result ≡ told_stored (answer_written starts.now corners.now bytes.old) }
    ensures bytes { bytes.new ≡ bytes_written starts.now corners.now bytes.old }
{
    boundary_table::bezinkwolu_write_table(starts, corners, bytes)
}

// table_shown::show_part: the part shown by where it lies in the lent corners of the operand asked
// for, never a copy.
#[unsafe(no_mangle)]
pub extern "C" fn bezinkwolu_show_part<'a>(
    left_starts: &[u32],
    left_corners: &'a [i32],
    right_starts: &[u32],
    right_corners: &'a [i32],
    right: bool,
    k: u32,
) -> ToldPart
    ensures { let ls = left_starts.now in
        let lc = left_corners.now in
        let rs = right_starts.now in
        let rc = right_corners.now in
        (result ≡ told_shown ls lc rs rc right k)
        × (slice result.offset (result.offset + result.length) (cond right rc lc) ≡ shown_part ls lc rs rc right k) }
{
    boundary_table::bezinkwolu_show_part(
        left_starts,
        left_corners,
        right_starts,
        right_corners,
        right,
        k,
    )
}
