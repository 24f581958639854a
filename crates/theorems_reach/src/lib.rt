// What is true of every end that calls have made of a fresh one. This crate has no code: specs/Machine.antt gathers the calls
// of `link` into one machine, specs/Runs.antt says what an end's history is, specs/Intervals.antt and specs/Seconds.antt what is
// counted of it, specs/Premises.antt what the theorems presuppose, specs/Moving.antt and specs/Ordering.antt what they say of
// discovery and of looping, and proofs/ holds the theorems.
#![tactic(auto)]
