// What is true of the octets that an end and a watch are packed to. This crate has no code: proofs/Packing.antt has the theorems.
#![tactic(auto)]
