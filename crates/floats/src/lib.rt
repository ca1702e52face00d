// The exact value of an f64, as a whole number of the least positive one, 2^-1074: definitions
// (specs/Floats.antt) and laws alone. In such numbers the comparisons, sums, differences, products
// by a power of two, whole parts and rounding of f64 are those of integers, with one rounding where
// f64 rounds (proofs/Lib.antt is the index). Leans on integers.
#![tactic(auto)]
