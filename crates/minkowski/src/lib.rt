// All pairs of two operands: int/minkowski.rs. The types, and in specs/ what a sum and a difference
// answer. Leans on walk and table.
#![tactic(auto)]

use table::IntRect;

// What a sum or a difference answers: the fault number, 0 for none, how many contours and corners
// were written, and the result's bounds; all 0 where it refused.
#[derive(Clone, Copy)]
pub struct PairCounts {
    pub fault: u32,
    pub contours: u32,
    pub corners: u32,
    pub bounds: IntRect,
}

// What two tables are combined by: the bounds of both operands, and a sum, or a difference where
// `reflected`. The bounds come first, so that a copy reads each of them as it was stored: one byte
// before them cost a pair of triangles 13 cycles of 260.
#[derive(Clone, Copy)]
pub struct Operation {
    pub left: IntRect,
    pub right: IntRect,
    pub reflected: bool,
}
