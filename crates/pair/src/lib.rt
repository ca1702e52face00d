// Walks and pairs: the types that their contracts name. The definitions are in specs/ (Premise:
// once round, strictly convex, reach; Walk: where a walk stands and what it hands out; Pair: the
// steps of a pair and its contour; Berg: de Berg et al.'s merge), and what holds of them, demand 3
// first, in proofs/. No code: that is in the crates above. Leans on plane.
#![tactic(auto)]

use plane::IntPoint;

// Where a walk stands in its contour (document 01: its place). A contour has at most 1,026 corners,
// so 16 bits are enough, and a walk that a caller makes up has at most 65,535 steps left.
// `segment`: it goes between `start` and `end` and back; else both are where it began.
#[repr(C)]
#[derive(Clone, Copy)]
pub struct Place {
    pub index: u16,
    pub remaining: u16,
    pub reverse: bool,
    pub reflected: bool,
    pub segment: bool,
    pub start: u16,
    pub end: u16,
}

// The two walks of a pair, by their places; the contours stand beside them.
#[repr(C)]
#[derive(Clone, Copy)]
pub struct ConvexSum {
    pub a: Place,
    pub b: Place,
}
