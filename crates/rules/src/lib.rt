// The rules, for proofs: the table, what a rule yields, and that it is sound. The code that decides it is crate
// matching.
#![tactic(auto)]
