// What is true of every line of the sent-event log. This crate has no code: proofs/Lines.antt has the theorems.
#![tactic(auto)]
