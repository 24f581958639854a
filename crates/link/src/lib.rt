// The link machine: the calls that step one end of an OAM link.
//
// A call steps the end where it stands, and says the length of the frame that it wrote into the lent output (0 for none) and
// what is shown. A refusal leaves the end and the output as they were.
#![tactic(auto)]

mod concluding;
mod hearing;
mod reporting;
mod requesting;
mod telling;
mod ticking;

pub use hearing::receive;
use link_end::{End, News};
pub use reporting::take_report;
pub use requesting::{notify, request_variables, respond, send_organization, start, stop};
pub use telling::told;
pub use ticking::tick;

// What a call comes to that is not refused: the length of the frame written, 0 for none, and what is shown.
#[derive(Clone, Copy)]
pub struct Step {
    pub length: usize,
    pub shown: News,
}

// What a call comes to as a whole, refused or not: the end after it, the answer (0 accepted, else the paper's number), the length
// of the frame written, the State octet with the parser and multiplexer actions, and what is shown.
#[derive(Clone, Copy)]
pub struct Outcome<'a> {
    pub end: &'a End,
    pub answer: u8,
    pub length: usize,
    pub octet: u8,
    pub shown: News,
}
