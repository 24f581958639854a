// Discovery: where its moves come to rest, the role there, and what is sent there.
//
// Discovery is not kept: it follows from the link, the settings and what is kept of the peer (`proofs/Resting.antt` shows
// that the paper's moves come to rest there).
#![tactic(auto)]

mod sending;
mod standing;

pub use sending::{cleared_record, fault_flag, own_information, remote_field};
pub use standing::{Seen, is_lost};

// The lost-link count that enters FAULT.
pub const LOST_COUNT: u8 = 50;

// Where discovery stands: the states of Figure 57-5 of the standard, in its names.
#[derive(Clone, Copy, PartialEq, Eq)]
pub enum Discovery {
    Fault,
    ActiveSendLocal,
    PassiveWait,
    SendLocalRemote,
    SendLocalRemoteOk,
    SendAny,
}
