// The buyer's demands as theorems, and the examples that are proved as one computed table. No code of its own.
// Promises: what proofs/ states, in the demands' order and words, over the definitions of the crates below.
// Rests on: every crate that the demands speak of.
#![tactic(auto)]
