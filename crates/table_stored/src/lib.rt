// That the two calls on stored tables undo each other: reading what `write_table` wrote gives the
// table back, and what `read_table` accepts is written as the same bytes. Statement in specs/,
// proof in proofs/; no code. Leans on table_read and table_write.
#![tactic(auto)]
