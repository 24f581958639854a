// What is true of every run of the listing. This crate has no code: specs/Runs.antt says what a run is, and proofs/ holds the
// theorems.
#![tactic(auto)]
