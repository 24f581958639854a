// Theorems on frames: both round trips of reader and writer (proofs/RoundTrip.antt), that what is read fits the octets it stands
// in (proofs/Fitting.antt), how long a frame in plain form is (proofs/Sizes.antt), that what the reader gives of a frame in plain
// form, handed to the writer of its code, gives that frame (proofs/Handing.antt), what answers descriptors, and how many of them
// (proofs/Responding.antt), and that who takes the steps of a body counts the TLVs that are skipped, and how many these can be
// (proofs/Skipping.antt). This crate has no code.
#![tactic(auto)]
