// What holds of all pairs of two accepted operands (specs/Results.antt): the buffers hold the
// pairs' contours, demand 3 and de Berg et al. of each, every corner within the result bounds, and
// the pairs of a longer left operand are those of its pieces one after another. Statements and
// their proofs alone. Leans on minkowski.
#![tactic(auto)]
