// Split parts of an accepted mesh in demand 3's words, for any limit and strategy: each is strictly
// convex, counter-clockwise, and goes once round, and its corners are on the grid; and what the
// split asks of the parts before it. Statements in specs/, proofs in proofs/; no code. Leans on
// convex_pairs and split_centre.
#![tactic(auto)]
