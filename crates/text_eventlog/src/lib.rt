// The sent-event log, one line an event: the line of an event that was sent, and what a line says.
//
// A line that was written reads back as what was meant, and a line that reads is the one that would be written for its
// values (the crate `theorems_log`).
#![tactic(auto)]

mod digits;
mod range;
mod reader;
mod store;

pub use reader::read_line;
pub use store::write_line;

// What a line says: the notification's number, the event's position in it, its type and its six values.
#[derive(Clone, Copy)]
pub struct Line {
    pub number: u64,
    pub position: u64,
    pub kind: u64,
    pub timestamp: u64,
    pub window: u64,
    pub threshold: u64,
    pub errors: u64,
    pub error_total: u64,
    pub event_total: u64,
}
