// OAM frames of IEEE 802.3ah Clause 57: from octets to what they say.
//
// `judgement_of` answers for a whole frame. Of one that it accepts, `header_of` gives the header, `fixed_number`, `event_number`
// and `command_of` the number at the body's start, `local_at` of `frame_body` the Local TLV, and the iterators and steps of
// `frame_body` and `frame_tlvs` the parts in order, over `body(frame)`, or over `events_body(frame)` for the events of a
// notification.
#![tactic(auto)]

mod flag_bits;
mod numbers;
mod parts;
mod reader;

pub use numbers::{command_of, event_number, fixed_number, header_of};
pub use parts::{body, events_body, organization_data};
pub use reader::judgement_of;

// What is shown of every accepted frame: the source address as a number, the flags (all sixteen bits), the code, and how many
// TLVs were skipped.
#[derive(Clone, Copy)]
pub struct Header {
    pub source: u64,
    pub flags: u16,
    pub code: u8,
    pub skipped: u16,
}

// The named bits and fields of a flags number.
#[derive(Clone, Copy)]
pub struct Flags {
    pub fault: bool,
    pub gasp: bool,
    pub critical: bool,
    pub local: u16,
    pub remote: u16,
}

// What is known of an accepted frame: where the Local TLV stands in its body, the body's length where it has none, and how many TLVs
// were skipped. With the refusal in its place this is two words.
#[derive(Clone, Copy)]
pub struct Accepted {
    pub local: usize,
    pub skipped: u16,
}
