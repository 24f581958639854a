// What an end is set to, what it keeps of its peer, and whether it is satisfied by that.
#![tactic(auto)]

mod bits;
mod peers;
mod ranges;

pub use bits::{is_active, is_loopback, is_unidirectional};
use frame_body::Information;
pub use peers::{
    is_peer_active, is_peer_loopback, kept_from, maximum, may_respond, peer_maximum, record_says,
};

// What an end is set to; nothing changes it.
#[derive(Clone, Copy)]
pub struct Settings {
    // the configuration octet that it sends
    pub configuration: u8,
    // its maximum frame size in octets, with the FCS
    pub size: u16,
    pub oui: u32,
    pub vendor: u32,
    // its source address, six octets as one number
    pub source: u64,
    // the capabilities that it wants of its peer, as bits of a configuration octet
    pub required: u8,
}
