// The entries of `oam` as the archive exports them, for C: each calls the entry of its name.
#![tactic(auto)]

mod logging;
mod machine;
mod reading;
mod requesting;
mod ticking;
mod writing;
