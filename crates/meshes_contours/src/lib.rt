// What the contours program prints of two mesh files: every contour has demand 3 of its two parts,
// and a sum is de Berg et al.'s; each triangle of either mesh stands in exactly one part before any
// split. Statements and their proofs alone. Leans on meshes_job, split_results and cover_parts.
#![tactic(auto)]
