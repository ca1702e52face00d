// Why an input is refused: the faults by name (`Fault`), and the numbers by which programs and the
// C interface tell them ("Faults that come from the input", "Faults that come from the state" of
// document 01, and those of document 02's requests). What is judged answers `Result<.., Fault>`;
// `told` of specs/Told.antt reads the number off it, 0 where it is accepted. Leans on integers,
// whose specs/Faults.antt has the numbers and the order in which kinds are tried.
#![tactic(auto)]

ghost use Rattle.std.specs.Prelude.{◌≡◌};
ghost use Rattle.faults.specs.Told.{number, told};

// A kind of fault, with its number.
#[derive(Clone, Copy, Debug, PartialEq, Eq)]
pub enum Fault {
    // More than 1,024 triangles.
    Triangles = 1,

    // A coordinate or bound not strictly between -2^30 and 2^30.
    Range = 2,

    // A neighbour neither none nor in the mesh, or the triangle itself.
    Stray = 3,

    // A neighbour named twice, or not naming back exactly once.
    Naming = 4,

    // A shared edge whose ends differ or don't run oppositely.
    Edge = 5,

    // A triangle's doubled area not above 0.
    Flat = 6,

    // A part table, or a contour's length, against the rules or limits.
    Rules = 7,

    // A winding's running total, as the walk forms it, leaves signed 64 bits.
    Winding = 8,

    // A least bound above a greatest, or a corner outside its bounds.
    Bounds = 9,

    // A result bound not strictly between -2^30 and 2^30.
    Result = 10,

    // Doubled areas of the mesh add up to more than 2^63-1, or a measured one leaves signed 64
    // bits.
    Total = 11,

    // A part number past the table.
    Part = 12,

    // A file or a pair job against its rules, or no such split.
    File = 13,

    // A path's step count, number, point or order of items against the rules.
    Path = 14,

    // An operand without parts, or a walk begun on an empty contour.
    Empty = 20,

    // Fewer places for corners, or for bytes, than the answer has.
    CornerRoom = 21,

    // Fewer places for starts than the answer has.
    StartRoom = 22,

    // A walk with no step left, or whose place or either segment end isn't a corner of its contour.
    Place = 23,
}

impl Fault {
    // The number of a fault.
    pub fn number(self) -> u32
        ensures { result ≡ number self }
    {
        self as u32
    }
}

// The number that is told of what was judged: 0 where it is accepted.
pub fn number_of(judged: Result<(), Fault>) -> u32
    ensures { result ≡ told judged }
{
    match judged {
        Ok(()) => 0,
        Err(fault) => fault.number(),
    }
}
