// The link end's entries for C and Rust: frames written and read, the lines of the sent-event log, and the link machine.
//
// An entry takes numbers and lent slices and trusts none of them. A slice is two arguments to its caller, where it begins and
// how many elements it has. An entry that writes answers an outcome: one number, the paper's answer in its low 8 bits, 0
// where it is accepted, and the length that was written above them, of which nothing is cut off (proofs/Lengths.antt of
// `theorems_archive`). A refusal leaves every lent slice as it was. What an entry reads is shown as numbers in lent slices (the
// crate `oam_showing`).
//
// An end of the link and its watch are kept in octets that the caller lends to each call (the crate `oam_packing`). The outcome
// of a call has the State octet after it in bits 40 to 47, what is shown in bits 48 and 49, and of a tick how many events arose in
// bits 50 and 51.
#![tactic(auto)]

mod lending;
mod logging;
mod machine;
mod reading;
mod requesting;
mod ticking;
mod writing;

pub use logging::{oam_log_read, oam_log_write};
pub use machine::{oam_fresh, oam_receive, oam_report, oam_show};
pub use reading::{oam_descriptors, oam_read, oam_read_all};
pub use requesting::{oam_notify, oam_organization, oam_request, oam_respond, oam_start, oam_stop};
pub use ticking::oam_tick;
pub use writing::{
    oam_write_information, oam_write_loopback, oam_write_notification, oam_write_organization,
    oam_write_request, oam_write_response,
};
