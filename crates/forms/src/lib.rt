// What other crates than the boundary_.. offer to C, for the runs beside the Rust and the benchmark
// alone: joining over triangle structs and the places of a held walk (docs/DECISIONS.md), each
// exported under its name, with the same contract. Leans on triangles_join, walk_held and on what
// their contracts name.
#![tactic(auto)]

pub mod triangles_join_calls;
pub mod walk_held_calls;
