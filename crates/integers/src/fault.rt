// Document 01's fault numbers ("Faults that come from the input", "Faults that come from the
// state") and those of document 02's requests, named once for all code. Definitions cite the same
// names, of specs/Faults.antt.

// More than 1,024 triangles.
pub const TRIANGLES: u32 = 1;

// A coordinate or bound not strictly between -2^30 and 2^30.
pub const RANGE: u32 = 2;

// A neighbour neither none nor in the mesh, or the triangle itself.
pub const STRAY: u32 = 3;

// A neighbour named twice, or not naming back exactly once.
pub const NAMING: u32 = 4;

// A shared edge whose ends differ or don't run oppositely.
pub const EDGE: u32 = 5;

// A triangle's doubled area not above 0.
pub const FLAT: u32 = 6;

// A part table, or a contour's length, against the rules or limits.
pub const RULES: u32 = 7;

// A winding's running total, as the walk forms it, leaves signed 64 bits.
pub const WINDING: u32 = 8;

// A least bound above a greatest, or a corner outside its bounds.
pub const BOUNDS: u32 = 9;

// A result bound not strictly between -2^30 and 2^30.
pub const RESULT: u32 = 10;

// Doubled areas of the mesh add up to more than 2^63-1, or a measured one leaves signed 64 bits.
pub const TOTAL: u32 = 11;

// A part number past the table.
pub const PART: u32 = 12;

// A file or a pair job against its rules, or no such split.
pub const FILE: u32 = 13;

// A path's step count, number, point or order of items against the rules.
pub const PATH: u32 = 14;

// An operand without parts, or a walk begun on an empty contour.
pub const EMPTY: u32 = 20;

// Fewer places for corners, or for bytes, than the answer has.
pub const CORNER_ROOM: u32 = 21;

// Fewer places for starts than the answer has.
pub const START_ROOM: u32 = 22;

// A walk with no step left, or whose place or either segment end isn't a corner of its contour.
pub const PLACE: u32 = 23;
