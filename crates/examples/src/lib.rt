// Document 01's starred examples, as one statement over a list: specs/Starred.antt has the list,
// proofs/Shown.antt shows that it holds. Leans on split and pair, whose definitions the examples
// apply.
#![tactic(auto)]
