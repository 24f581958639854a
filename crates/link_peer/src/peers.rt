// What is kept of a received frame, what a peer record says, and whether an end is satisfied by it.
ghost use Rattle.std.specs.Prelude.{◌≡◌};
ghost use Rattle.link_peer.specs.Peers.{maximum_of, has_all, satisfies, satisfied, peer_active, peer_loopback, may_respond, peer_maximum, kept_from, record_says};
ghost use Rattle.octets.specs.Bits.{bit};

use crate::Settings;
use crate::bits::{is_active, is_loopback, is_variable_retrieval};
use frame::Flags;
use frame_body::Information;

// The maximum size that an Information TLV says.
pub fn maximum(i: Information) -> u16
    ensures { result ≡ maximum_of i }
{
    i.oampdu % 2048
}

#[tactic(auto, unfolding(crate::specs::Peers::has_all))]
fn has_all(required: u8, configuration: u8) -> bool
    ensures { result ≡ has_all required configuration }
{
    required & configuration == required
}

impl Settings {
    // Whether an end of these settings may act of its own accord: its mode is active.
    pub fn is_active(self) -> bool
        ensures { result ≡ bit 0 self.configuration }
    {
        is_active(self.configuration)
    }

    #[tactic(auto, unfolding(crate::specs::Peers::satisfies))]
    fn satisfies(self, i: Information) -> bool
        ensures { result ≡ satisfies self i }
    {
        i.version == 1
            && 64 <= maximum(i)
            && (is_active(self.configuration) || is_active(i.configuration))
            && has_all(self.required, i.configuration)
    }

    // Whether an end of these settings is satisfied by the peer record, where one is held.
    #[tactic(auto, unfolding(crate::specs::Peers::satisfied))]
    pub fn is_satisfied(self, held: Option<Information>) -> bool
        ensures { result ≡ satisfied self held }
    {
        held.is_some_and(|i| self.satisfies(i))
    }
}

// Whether there is a record of the peer that says active mode.
#[tactic(auto, unfolding(crate::specs::Peers::peer_active))]
pub fn is_peer_active(held: Option<Information>) -> bool
    ensures { result ≡ peer_active held }
{
    held.is_some_and(|i| is_active(i.configuration))
}

// Whether there is a record of the peer that says that it can loop.
#[tactic(auto, unfolding(crate::specs::Peers::peer_loopback))]
pub fn is_peer_loopback(held: Option<Information>) -> bool
    ensures { result ≡ peer_loopback held }
{
    held.is_some_and(|i| is_loopback(i.configuration))
}

// Whether an end of a configuration may answer the peer's variable requests.
#[tactic(auto, unfolding(crate::specs::Peers::may_respond))]
pub fn may_respond(configuration: u8, held: Option<Information>) -> bool
    ensures { result ≡ may_respond configuration held }
{
    is_variable_retrieval(configuration) && (!is_active(configuration) || is_peer_active(held))
}

// The peer's maximum size, 0 where no record is held.
#[tactic(auto, unfolding(crate::specs::Peers::peer_maximum))]
pub fn peer_maximum(held: Option<Information>) -> u16
    ensures { result ≡ peer_maximum held }
{
    held.map_or(0, maximum)
}

// The kept field after flags: a received 3 keeps the last value.
#[tactic(auto, unfolding(crate::specs::Peers::kept_from))]
pub fn kept_from(flags: u16, kept: u16) -> u16
    ensures { result ≡ kept_from flags kept }
{
    match Flags::from(flags).local {
        3 => kept,
        local => local,
    }
}

// What a record says, all zero where there is none.
pub fn record_says(held: Option<Information>) -> Information
    ensures { result ≡ record_says held }
{
    held.unwrap_or_default()
}
