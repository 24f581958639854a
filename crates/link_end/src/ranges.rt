// What every end keeps to that calls have made of a fresh one.
ghost use Rattle.std.specs.Prelude.{◌≡◌, true};
ghost use Rattle.link_end.specs.Parts.{as_end};
ghost use Rattle.link_end.specs.Ranges.{record_fits, last_fits, blank, besides, peer_ranged, rest_ranged, ranged, end_with, checked};

use crate::{End, Link, Own, Peer};
use frame_body::Information;
use link_limit::Meter;
use link_loopback::Role;
use link_peer::Settings;
use octets::Refusal;

// Only the OUI is narrower than its type.
#[tactic(auto, unfolding(crate::specs::Ranges::record_fits))]
fn record_fits(held: Option<Information>) -> bool
    ensures { result ≡ record_fits held }
{
    held.is_none_or(|i| i.oui < 0x1000000)
}

impl Peer {
    #[tactic(auto, unfolding(crate::specs::Ranges::blank))]
    fn is_blank(&self) -> bool
        ensures { result ≡ blank self.now }
    {
        self.kept == 0 && self.held.is_none() && self.last.is_none()
    }

    // A last event number is kept only beside a record. (It fits, as its type has it.)
    #[tactic(auto, unfolding(crate::specs::Ranges::last_fits))]
    fn is_beside(&self) -> bool
        ensures { (result ≡ besides self.now) × (last_fits self.now.last ≡ true) }
    {
        self.last.is_none_or(|_| self.held.is_some())
    }

    // Whether what is kept of the peer keeps to its ranges, by whether the link is up.
    #[tactic(auto, unfolding(crate::specs::Ranges::peer_ranged))]
    fn is_ranged(&self, up: bool) -> bool
        ensures { result ≡ peer_ranged up self.now }
    {
        self.kept <= 2 && record_fits(self.held) && self.is_beside() && (up || self.is_blank())
    }
}

impl End {
    // Whether the role, the meter and what is owed keep to their ranges, by where discovery stands.
    #[tactic(auto, unfolding(crate::specs::Ranges::rest_ranged, crate::specs::Parts::in_any, crate::specs::Sending::allowed))]
    fn is_rest_ranged(&self) -> bool
        ensures { result ≡ rest_ranged self.now }
    {
        let standing = self.discovery();
        (self.role == Role::Idle || standing.is_any())
            && self.role.fits(self.settings.configuration)
            && self.meter.is_bounded()
            && (!self.own.owed || standing.allows(self.fault_flag()))
    }

    // Whether an end keeps to its ranges. What its types alone keep to is not tested.
    #[tactic(auto, unfolding(crate::specs::Ranges::ranged, crate::specs::Ranges::peer_ranged, crate::specs::Ranges::rest_ranged))]
    fn is_ranged(self) -> bool
        ensures { result ≡ ranged self }
    {
        self.settings.is_sound()
            && self.link.lost < link_discovery::LOST_COUNT
            && self.peer.is_ranged(self.link.up)
            && self.is_rest_ranged()
    }

    // The end of six parts; `OutOfRange` where no end that keeps to its ranges has them.
    #[tactic(auto, unfolding(crate::specs::Ranges::checked))]
    pub fn with(
        settings: Settings,
        link: Link,
        peer: Peer,
        role: Role,
        meter: Meter,
        own: Own,
    ) -> Result<End, Refusal>
        ensures { as_end result ≡ checked (end_with settings link peer role meter own) }
    {
        let end = End {
            settings,
            meter,
            link,
            peer,
            role,
            own,
        };
        if end.is_ranged() {
            return Ok(end);
        }
        Err(Refusal::OutOfRange)
    }
}
