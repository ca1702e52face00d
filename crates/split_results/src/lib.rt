// From two meshes to their pairs: whatever the limit and the strategy, every contour that an
// accepted sum or difference of their split parts leaves in the buffers has demand 3, and a sum is
// de Berg et al.'s. A statement and its proof alone. Leans on split_operand and minkowski_pairs.
#![tactic(auto)]
