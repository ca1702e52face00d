// The part shown (document 01: "The desk asks for part k of the left or the right operand and gets
// those corners themselves, not a copy"): `show_part` returns a part of one of the two lent corner
// slices, at their lifetime, and tells the fault number, 0 for none, in a lent number. It takes any
// input: the part and the number equal the definitions of table's specs/Shown.antt, and where the
// part lies that of specs/Place.antt, in the asked operand's own corners. A refusal shows an empty
// part, at the left corners. Leans on table and corners.
#![tactic(auto)]

ghost use Rattle.std.specs.Prelude.{◌≡◌, false, ◌<◌};
ghost use Rattle.faults.specs.Told.{told};
ghost use Rattle.table.specs.Table.{table_broken, part_count};
ghost use Rattle.table.specs.Shown.{shown_fault, shown_part, part_numbers};
ghost use Rattle.table_shown.specs.Place.{part_place, shown_place};

use faults::Fault;

// The fault of asking for part k of the left or the right table. Both tables are judged, also the
// one not asked for.
fn shown_fault(
    left_starts: &[u32],
    left_corners: &[i32],
    right_starts: &[u32],
    right_corners: &[i32],
    right: bool,
    k: usize,
) -> Result<(), Fault>
    ensures { told result ≡ shown_fault
        left_starts.now left_corners.now
        right_starts.now right_corners.now right k }
{
    if table::rules_broken(left_starts, left_corners)
        || table::rules_broken(right_starts, right_corners)
    {
        return Err(Fault::Rules);
    }
    if right {
        if right_starts.len() - 1 <= k {
            return Err(Fault::Part);
        }
        return Ok(());
    }
    if left_starts.len() - 1 <= k {
        return Err(Fault::Part);
    }
    Ok(())
}

// The numbers of part k's corners, where they lie in the lent corners.
pub fn part_of<'a>(starts: &[u32], corners: &'a [i32], k: usize) -> &'a [i32]
    requires { (table_broken starts.now corners.now ≡ false) × (k < part_count starts.now) }
    ensures numbers { result.now ≡ part_numbers starts.now corners.now k }
    ensures placed { result.ref_ptr ≡ part_place starts.now corners.entry.ref_ptr k }
{
    let from = starts[k] as usize;
    let to = starts[k + 1] as usize;
    corners::part(corners, from, to)
}

// Part k of the right table, or of the left one, and the fault number in `fault`. Refuses with 7,
// 12, in this order.
pub fn show_part<'a>(
    left_starts: &[u32],
    left_corners: &'a [i32],
    right_starts: &[u32],
    right_corners: &'a [i32],
    right: bool,
    k: u32,
    fault: &mut u32,
) -> &'a [i32]
    ensures shown { result.now ≡ shown_part
        left_starts.now left_corners.now
        right_starts.now right_corners.now right k }
    ensures told { fault.new ≡ shown_fault
        left_starts.now left_corners.now
        right_starts.now right_corners.now right k }
    ensures placed { result.ref_ptr ≡ shown_place fault.new
        left_starts.now left_corners.entry.ref_ptr
        right_starts.now right_corners.entry.ref_ptr right k }
{
    let part = k as usize;
    let judged = shown_fault(
        left_starts,
        left_corners,
        right_starts,
        right_corners,
        right,
        part,
    );
    if let Err(refused) = judged {
        *fault = refused.number();
        return &left_corners[0..0];
    }
    *fault = 0;
    if right {
        return part_of(right_starts, right_corners, part);
    }
    part_of(left_starts, left_corners, part)
}
