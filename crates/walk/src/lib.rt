// One walk and one pair's step, as calls that refuse by number: int/minkowski_sum.rs. The types
// that they answer with, and in specs/ what each answers. Leans on pair and table.
#![tactic(auto)]

use pair::{ConvexSum, Place};
use plane::{IntPoint, IntVector};

// A walk begun: where it stands, or the fault number.
#[derive(Clone, Copy)]
pub enum Begun {
    At(Place),
    Refused(u32),
}

// A walk's point, or the fault number.
#[derive(Clone, Copy)]
pub enum Pointed {
    Point(IntPoint),
    Refused(u32),
}

// A walk's edge, or the fault number.
#[derive(Clone, Copy)]
pub enum Edged {
    Edge(IntVector),
    Refused(u32),
}

// A walk advanced: where it stands, or the fault number and the walk as it came.
#[derive(Clone, Copy)]
pub enum Advanced {
    At(Place),
    Refused(u32, Place),
}

// A walk stepped: the edge that it took and where it stands, or the fault number and the walk as it
// came.
#[derive(Clone, Copy)]
pub enum Stepped {
    Edge(IntVector, Place),
    Refused(u32, Place),
}

// A pair begun: where both walks stand, or the fault number.
#[derive(Clone, Copy)]
pub enum Paired {
    At(ConvexSum),
    Refused(u32),
}

// A pair stepped: a corner and where both walks stand, the end and where both stand, or the fault
// number and both walks as they came.
#[derive(Clone, Copy)]
pub enum Next {
    Corner(IntPoint, ConvexSum),
    End(ConvexSum),
    Refused(u32, ConvexSum),
}
