// Joining as a definition (specs/Joining.antt), the zipper form that the code works on
// (specs/Zipper.antt), and their laws; no code, which is in convex_ring, convex_grow,
// convex_contour and convex_join. Leans on mesh and table.
#![tactic(auto)]
