// The parts of an accepted mesh in demand 3's words: each is strictly convex, counter-clockwise,
// and goes once round, so any two of them meet the premise of the farthest-reach rule; and strictly
// convex contours are those any three corners of which turn left. Statement in specs/, proofs in
// proofs/; no code. Leans on convex and pair.
#![tactic(auto)]
