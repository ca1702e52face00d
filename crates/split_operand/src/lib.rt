// From a mesh to an operand: the split parts of an accepted mesh, with bounds that hold them, are
// an operand that pairs do not refuse for themselves, on either side, for sum and difference; and
// the area listing's total is the mesh's. Statements in specs/, proofs in proofs/; no code. Leans
// on split_pairs, minkowski and listing.
#![tactic(auto)]
