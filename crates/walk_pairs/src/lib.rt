// That calling a pair's step from two walks begun, until it tells the end, hands out exactly the
// pair's contour, for sums and differences of any two contours that are accepted; and demand 3 of
// what is handed out. Statement in specs/, proof in proofs/; no code. Leans on walk_pair and
// walk_next.
#![tactic(auto)]
