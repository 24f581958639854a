// An end as 27 numbers, those of its parts one after another, as `oam_show` shows it. What they are is said in `oam_packing`, beside
// the octets of each part.
#![tactic(auto)]

ghost use Rattle.std.specs.Prelude.{◌≡◌};
ghost use Rattle.link_peer.specs.Peers.{record_says};
ghost use Rattle.oam_packing.specs.Numbers.{numbers_of};

use link_end::End;
use oam_packing::{is_known, last_number};

// All in one array: an array for each part would be read again number by number.
#[tactic(auto, unfolding(oam_packing::specs::Numbers::numbers_of))]
pub fn numbers_of(end: &End) -> [u64; 27]
    ensures { result ≡ numbers_of end.now }
{
    let settings = end.settings();
    let link = end.link();
    let peer = end.peer();
    let says = link_peer::record_says(peer.held);
    let meter = end.meter();
    let own = end.own();
    [
        u64::from(settings.configuration),
        u64::from(settings.size),
        u64::from(settings.oui),
        u64::from(settings.vendor),
        settings.source,
        u64::from(settings.required),
        u64::from(link.up),
        u64::from(link.lost),
        u64::from(peer.kept),
        u64::from(peer.held.is_some()),
        u64::from(says.version),
        u64::from(says.revision),
        u64::from(says.state),
        u64::from(says.configuration),
        u64::from(says.oampdu),
        u64::from(says.oui),
        u64::from(says.vendor),
        u64::from(is_known(peer.last)),
        u64::from(last_number(peer.last)),
        u64::from(end.role().number()),
        meter.ticks(),
        u64::from(meter.written_frames()),
        u64::from(own.revision),
        u64::from(own.number),
        u64::from(own.gasp),
        u64::from(own.critical),
        u64::from(own.owed),
    ]
}
