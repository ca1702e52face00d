// What the area program can count on: a listing or a refusal has at most 233,522 bytes, whatever
// the file (`ListingFits`), and the split parts of an accepted file are a part table that can be
// listed (`FileListable`). Statements in specs/, proofs in proofs/; no code. Leans on listing_areas
// and split_operand.
#![tactic(auto)]
