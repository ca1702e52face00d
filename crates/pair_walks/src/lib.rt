// The walks of two operands unrolled to points in one buffer, the left one's first
// (specs/Walks.antt): walk p is the points from firsts[p] to firsts[p + 1]. Where a walk lies in
// the buffer, and that the walks of unrolled parts are such, are laws of proofs/. No code. Leans on
// points and pair_merge.
#![tactic(auto)]
