// Two mesh files one after the other, as two operands of pairs: the left file is as long as its
// header's total says, and the right one is all the rest (specs/Files.antt). `take_two` takes any
// bytes; what it answers and leaves in the lent arrays is either file's operand, or the fault of
// the left file or, where that has none, of the right. Leans on mesh_operand.
#![tactic(auto)]

ghost use Rattle.mesh_pair.specs.Files.{Cut, TwoTaken};

use file_parts::{NUMBERS, STARTS};
use mesh_operand::Taken;
use table_words::{WORD, word_at};

// What `take_two` answers: the fault number, 0 for none, and what is told of either file.
#[derive(Clone, Copy)]
pub struct Two {
    pub fault: u32,
    pub left: Taken,
    pub right: Taken,
}

// Where the right file begins: after as many bytes as the left one's header says, or at the end
// where there are fewer, or no such word.
fn left_end(bytes: &[u8]) -> usize
    ensures { Cut bytes.now result }
{
    if bytes.len() < WORD {
        return 0;
    }
    (word_at(bytes, 0) as usize).min(bytes.len())
}

// Both files' operands, each on the front of its lent starts and corners, or the fault of the first
// file that has one.
pub fn take_two(
    bytes: &[u8],
    left_starts: &mut [u32; STARTS],
    left_corners: &mut [i32; NUMBERS],
    right_starts: &mut [u32; STARTS],
    right_corners: &mut [i32; NUMBERS],
) -> Two
    ensures { TwoTaken bytes.now result
        left_starts.new left_corners.new
        right_starts.new right_corners.new }
{
    let at = left_end(bytes);
    let left = mesh_operand::take_operand(&bytes[..at], left_starts, left_corners);
    if left.fault != 0 {
        return Two {
            fault: left.fault,
            left,
            right: left,
        };
    }
    let right = mesh_operand::take_operand(&bytes[at..], right_starts, right_corners);
    Two {
        fault: right.fault,
        left,
        right,
    }
}
