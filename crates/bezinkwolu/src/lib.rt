// The C library: each call of the crates boundary_.. exported under its name, with the same
// contract. The package (./package), the runs beside the judge and the benchmark link the one
// archive. Leans on the crates boundary_.. and on what their contracts name.
#![tactic(auto)]

pub mod listing_calls;
pub mod measure_calls;
pub mod mesh_calls;
pub mod pairs_calls;
pub mod path_calls;
pub mod place_calls;
pub mod plane_calls;
pub mod split_calls;
pub mod table_calls;
pub mod walk_calls;
