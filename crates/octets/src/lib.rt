// What every crate stands on: the refusals, numbers that fit in octets, octets stored in a lent output, and the layout of a frame
// by name. Numbers and octets go to one another by std's `from_be_bytes` and `to_be_bytes`.
#![tactic(auto)]

mod fitting;
mod refusal;
mod storing;

pub use fitting::{all_fit, fits};
pub use refusal::Refusal;
pub use storing::put_octets;

// A frame's octets, without its FCS: from 60 to 1,514.
pub const SHORTEST_FRAME: usize = 60;

pub const LONGEST_FRAME: usize = 1514;

// The address that every OAM frame is sent to, its Length/Type and its subtype.
pub const DESTINATION: u64 = 0x0180c2000002;

pub const LENGTH_TYPE: u16 = 0x8809;

pub const SUBTYPE: u8 = 3;

// Where the body starts, the events of a notification after its number, and an organization's data after its OUI.
pub const BODY_START: usize = 18;

pub const EVENTS_START: usize = 20;

pub const DATA_START: usize = 21;
