// The faults of two operands that need no walk: 7, 2 and 9 (`operands_fault`), and 10 and 20
// (`result_fault`) with the result's bounds (`result_bounds`), as int/minkowski.rs has them in
// `validate_bounds`. Each equals its list of kinds in specs/Kinds.antt. Leans on table and
// minkowski's definitions.
#![tactic(auto)]

ghost use Rattle.std.specs.Prelude.{◌≡◌, false, ◌++◌, ◌∷◌, [], eqb};
ghost use Rattle.integers.specs.Faults.{first_fault, fault_empty, fault_result};
ghost use Rattle.faults.specs.Told.{told};
ghost use Rattle.corners.specs.Corners.{off_range};
ghost use Rattle.table.specs.Table.{bounds_list, part_count};
ghost use Rattle.minkowski.specs.Pairs.{result_bounds};
ghost use Rattle.minkowski_faults.specs.Kinds.{operand, operand_kinds};

use faults::Fault;
use table::IntRect;

// Whether one of two numbers is not strictly between the limits.
fn either_off(a: i32, b: i32) -> bool
    ensures { result ≡ off_range (a ∷ b ∷ []) }
{
    !plane::in_range(a) || !plane::in_range(b)
}

// Whether some bound is not strictly between the limits.
fn bounds_off(b: IntRect) -> bool
    ensures { result ≡ off_range (bounds_list b) }
{
    either_off(b.min_x, b.max_x) || either_off(b.min_y, b.max_y)
}

// Whether some coordinate or bound of an operand is not strictly between the limits.
fn operand_off(corners: &[i32], bounds: IntRect) -> bool
    ensures { result ≡ off_range (corners.now ++ bounds_list bounds) }
{
    corners::off_range(corners) || bounds_off(bounds)
}

// The first of 7, 2 and 9 that holds of two operands, each left before right.
pub fn operands_fault(
    left_starts: &[u32],
    left_corners: &[i32],
    left_bounds: IntRect,
    right_starts: &[u32],
    right_corners: &[i32],
    right_bounds: IntRect,
) -> Result<(), Fault>
    ensures { let left = operand left_starts.now left_corners.now left_bounds in
        let right = operand right_starts.now right_corners.now right_bounds in
        told result ≡ first_fault (operand_kinds left right) }
{
    if table::rules_broken(left_starts, left_corners)
        || table::rules_broken(right_starts, right_corners)
    {
        return Err(Fault::Rules);
    }
    if operand_off(left_corners, left_bounds) || operand_off(right_corners, right_bounds) {
        return Err(Fault::Range);
    }
    if table::bounds_broken(left_bounds, left_corners)
        || table::bounds_broken(right_bounds, right_corners)
    {
        return Err(Fault::Bounds);
    }
    Ok(())
}

// The bounds of a sum: least with least, greatest with greatest; of a difference: left least less
// right greatest, left greatest less right least.
pub fn result_bounds(left: IntRect, right: IntRect, reflected: bool) -> IntRect
    requires { (off_range (bounds_list left) ≡ false) × (off_range (bounds_list right) ≡ false) }
    ensures { result ≡ result_bounds reflected left right }
{
    if reflected {
        IntRect {
            min_x: left.min_x - right.max_x,
            max_x: left.max_x - right.min_x,
            min_y: left.min_y - right.max_y,
            max_y: left.max_y - right.min_y,
        }
    } else {
        IntRect {
            min_x: left.min_x + right.min_x,
            max_x: left.max_x + right.max_x,
            min_y: left.min_y + right.min_y,
            max_y: left.max_y + right.max_y,
        }
    }
}

// The first of 10 and 20 that holds: `bounds` are the result's, and each operand has one part fewer
// than starts.
pub fn result_fault(bounds: IntRect, left_starts: &[u32], right_starts: &[u32]) -> Result<(), Fault>
    ensures { told result ≡ first_fault (
        (fault_result, off_range (bounds_list bounds))
        ∷ (fault_empty, eqb (part_count left_starts.now) 0)
        ∷ (fault_empty, eqb (part_count right_starts.now) 0)
        ∷ []) }
{
    if bounds_off(bounds) {
        return Err(Fault::Result);
    }
    if left_starts.len() <= 1 || right_starts.len() <= 1 {
        return Err(Fault::Empty);
    }
    Ok(())
}
