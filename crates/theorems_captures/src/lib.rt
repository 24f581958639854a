// What is true of every listing of a capture file. This crate has no code: specs/ says what a run, a file and its records are,
// and proofs/ holds the theorems.
#![tactic(auto)]
