// The TLVs of a body: what stands at an octet, whether a kind of body knows it, and the fields of an event's.
//
// `Events` goes over the events of a notification, from its start or from any cursor, and stands at a cursor: with it comes the
// number of TLVs of unknown type that were skipped since the body's start. `TlvMarks` goes over the TLVs of a body by their types
// alone. A step (`event_step`, `mark_at`) judges what stands at its octet alone.
#![tactic(auto)]

mod counting;
mod marking;
mod notifications;
mod numbers;
mod tlvs;

pub use counting::{more, start};
pub use notifications::{event_length, event_step, event_widths};
pub use tlvs::mark_at;

// The kinds of body that are made of TLVs.
#[derive(Clone, Copy)]
pub enum Kind {
    Information,
    Events,
}

// A part of a body, with the octet after it.
#[derive(Clone, Copy)]
pub struct Placed<T> {
    pub part: T,
    pub end: usize,
}

// The TLVs of a body in order, as a kind of body sees them: each item is the octet at which a TLV stands, with its
// type, or `None` for one that the kind does not know. What is broken comes as `Refusal::Broken`, and nothing comes after it.
#[derive(Clone, Drop)]
pub struct TlvMarks<'a> {
    kind: Kind,
    body: &'a [u8],
    at: usize,
}

// The fields of one event TLV, in the order of the table of widths; `kind` is its type, 1 to 4.
#[derive(Clone, Copy)]
pub struct Event {
    pub kind: u8,
    pub timestamp: u64,
    pub window: u64,
    pub threshold: u64,
    pub errors: u64,
    pub error_total: u64,
    pub event_total: u64,
}

// Where a walk over a body's TLVs stands: the octet to look at, and how many TLVs were skipped since the body's start.
#[derive(Clone, Copy)]
pub struct Cursor {
    pub at: usize,
    pub skipped: usize,
}

// The events of a notification in order, from a cursor on: each item is an event, or `None` for a TLV of unknown type, which is
// skipped. What is broken comes as `Refusal::Broken`, and nothing comes after it.
#[derive(Clone, Drop)]
pub struct Events<'a> {
    body: &'a [u8],
    cursor: Cursor,
}
