// Two ends joined by a bad link: what a run is, and what holds in every run (the demand on two ends). This crate has no code:
// specs/System.antt has the two ends and the link, specs/Safe.antt the demand's sentences, specs/Examples.antt the
// paper's table, and proofs/ the theorems.
#![tactic(auto)]
