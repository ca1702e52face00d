// What `placement` tells is so: of the contours that an accepted difference of two accepted meshes
// leaves, it tells overlapping exactly where the second mesh, moved to the place, overlaps the
// first, touching exactly where they meet and do not overlap, apart else. Statement in specs/,
// proof in proofs/; no code. Leans on placement and cover_results.
#![tactic(auto)]
