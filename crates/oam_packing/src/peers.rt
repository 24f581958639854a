// What an end keeps of its peer: the kept field, the record, the last event number received.
ghost use Rattle.std.specs.Prelude.{◌≡◌};
ghost use Rattle.link_peer.specs.Peers.{record_says};
ghost use Rattle.oam_packing.specs.Peers.{known, last_number, peer_octets, peer_from, is_peer};

use crate::parts::{Part, is_held_or_zero};
use frame_body::Information;
use link_end::Peer;

pub(crate) const LENGTH: usize = 19;

// Whether an event number was received since FAULT was entered.
pub fn is_known(last: Option<u16>) -> bool
    ensures { result ≡ known last }
{
    last.is_some()
}

// 0 where none is known.
pub fn last_number(last: Option<u16>) -> u16
    ensures { result ≡ last_number last }
{
    last.unwrap_or_default()
}

impl Part<LENGTH> for Peer {
    ghost octets = { peer_octets };

    ghost from = { peer_from };

    ghost fitting = { is_peer };

    #[tactic(auto, unfolding(crate::specs::Peers::peer_octets))]
    fn put(self, out: &mut [u8], at: usize) {
        let i = link_peer::record_says(self.held);
        let [_, kept] = self.kept.to_be_bytes();
        let [a, b] = i.revision.to_be_bytes();
        let [c, d] = i.oampdu.to_be_bytes();
        let [_, e, f, g] = i.oui.to_be_bytes();
        let [h, j, k, l] = i.vendor.to_be_bytes();
        let [m, n] = last_number(self.last).to_be_bytes();
        octets::put_octets(
            out,
            at,
            &[
                kept,
                u8::from(self.held.is_some()),
                i.version,
                a,
                b,
                i.state,
                i.configuration,
                c,
                d,
                e,
                f,
                g,
                h,
                j,
                k,
                l,
                u8::from(self.last.is_some()),
                m,
                n,
            ],
        );
    }

    #[tactic(auto, unfolding(crate::specs::Peers::peer_from, crate::specs::Peers::information_from))]
    fn from_octets(kept: &[u8; LENGTH]) -> Peer {
        let &[
            kept,
            held,
            version,
            a,
            b,
            state,
            configuration,
            c,
            d,
            e,
            f,
            g,
            h,
            j,
            k,
            l,
            known,
            m,
            n,
        ] = kept;
        let says = Information {
            version,
            revision: u16::from_be_bytes([a, b]),
            state,
            configuration,
            oampdu: u16::from_be_bytes([c, d]),
            oui: u32::from_be_bytes([0, e, f, g]),
            vendor: u32::from_be_bytes([h, j, k, l]),
        };
        Peer {
            kept: u16::from(kept),
            held: (held == 1).then_some(says),
            last: (known == 1).then_some(u16::from_be_bytes([m, n])),
        }
    }

    // The record stands after the kept field, and the last event number after it.
    #[tactic(auto, unfolding(crate::specs::Peers::is_peer))]
    fn are_octets(kept: &[u8; LENGTH]) -> bool {
        is_held_or_zero(&kept[1..16]) && is_held_or_zero(&kept[16..])
    }
}
