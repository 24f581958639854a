// An end and its watch in the octets of a state, in which a caller keeps them.
//
// Each part of an end is a module of its own, which alone knows the part's octets, and so is the watch, which stands behind
// them. They are joined here, and this place knows only their lengths. The octets of an end that keeps to its ranges, beside
// those of a proper watch in its phase, are unpacked to it, and no other octets are (`theorems_packing`).
#![tactic(auto)]

mod link;
mod meter;
mod own;
mod parts;
mod peers;
mod roles;
mod settings;
mod watches;

ghost use Rattle.std.specs.Prelude.{◌≡◌, length};
ghost use Rattle.link_end.specs.Parts.{as_end};
ghost use Rattle.link_end.specs.Ranges.{checked};
ghost use Rattle.oam_packing.specs.Parts.{stored_at};
ghost use Rattle.oam_packing.specs.Octets.{end_lengths, state_length, end_parts, packed_in, watch_packed_in, is_state, end_of, watch_held, is_watched, unpacked, watch_in};

use link_end::{End, Link, Own, Peer};
use link_limit::Meter;
use link_loopback::Role;
use link_peer::Settings;
use link_windows::{Watch, Window};
use octets::Refusal;
use parts::{Part, octets_at};
pub use peers::{is_known, last_number};

// Where each part begins: after the parts before it.
const LINK: usize = settings::LENGTH;

const PEER: usize = LINK + link::LENGTH;

const ROLE: usize = PEER + peers::LENGTH;

const METER: usize = ROLE + roles::LENGTH;

const OWN: usize = METER + meter::LENGTH;

const WATCH: usize = OWN + own::LENGTH;

// The octets of a state.
pub const STATE_LENGTH: usize = WATCH + watches::LENGTH;

// Whether every part's octets are those of some such part.
#[tactic(auto, unfolding(crate::specs::Octets::is_state))]
fn is_state(state: &[u8; STATE_LENGTH]) -> bool
    ensures { result ≡ is_state state.now }
{
    Link::are_octets(octets_at(state, LINK))
        && Peer::are_octets(octets_at(state, PEER))
        && Role::are_octets(octets_at(state, ROLE))
        && Own::are_octets(octets_at(state, OWN))
}

// The end whose parts stand in the octets of a state, or a refusal where it does not keep to its ranges.
#[tactic(auto, unfolding(crate::specs::Octets::end_of))]
fn end_of(state: &[u8; STATE_LENGTH]) -> Result<End, Refusal>
    ensures { as_end result ≡ checked (end_of state.now) }
{
    End::with(
        Settings::from_octets(octets_at(state, 0)),
        Link::from_octets(octets_at(state, LINK)),
        Peer::from_octets(octets_at(state, PEER)),
        Role::from_octets(octets_at(state, ROLE)),
        Meter::from_octets(octets_at(state, METER)),
        Own::from_octets(octets_at(state, OWN)),
    )
}

// The watch whose octets stand in those of a state.
#[tactic(auto, unfolding(crate::specs::Octets::watch_held))]
fn watch_held(state: &[u8; STATE_LENGTH]) -> Watch
    ensures { result ≡ watch_held state.now }
{
    Watch::from_octets(octets_at(state, WATCH))
}

// Whether they are those of a watch in the phase of the end that stands before it.
#[tactic(auto, unfolding(crate::specs::Octets::is_watched))]
fn is_watched(state: &[u8; STATE_LENGTH]) -> bool
    ensures { result ≡ is_watched state.now }
{
    let watch = watch_held(state);
    let meter = Meter::from_octets(octets_at(state, METER));
    Watch::are_octets(octets_at(state, WATCH))
        && watch.is_proper()
        && watch.phase() == meter.ticks()
}

// The end that a caller keeps in some octets, or a refusal where no end is packed to them with a watch beside it.
#[tactic(auto, unfolding(crate::specs::Octets::unpacked))]
pub fn unpack(state: &[u8]) -> Result<End, Refusal>
    ensures { as_end result ≡ unpacked state.now }
{
    let Some(state) = state.as_array() else {
        return Err(Refusal::OutOfRange);
    };
    if is_state(state) && is_watched(state) {
        return end_of(state);
    }
    Err(Refusal::OutOfRange)
}

// Stores the parts of an end, each where the one before it ends.
fn put_parts(end: &End, state: &mut [u8])
    requires { length state.old ≡ state_length }
    ensures { state.new ≡ stored_at end_lengths (end_parts end.now) state.old 0 }
{
    end.settings().put(state, 0);
    end.link().put(state, LINK);
    end.peer().put(state, PEER);
    end.role().put(state, ROLE);
    end.meter().put(state, METER);
    end.own().put(state, OWN);
}

// Stores an end in the octets of a state, whose watch stays; in any other nothing is stored.
pub fn pack(end: &End, state: &mut [u8])
    ensures { state.new ≡ packed_in end.now state.old }
{
    if state.len() == STATE_LENGTH {
        put_parts(end, state);
    }
}

// The watch that a caller keeps in the octets of a state; of a slice of another length one of zeros.
#[tactic(auto, unfolding(crate::specs::Octets::watch_in))]
pub fn watch_in(state: &[u8]) -> Watch
    ensures { result ≡ watch_in state.now }
{
    let Some(state) = state.as_array() else {
        let none = Window::fresh(0, 0);
        return Watch::of(none, none, 0, false);
    };
    watch_held(state)
}

// Stores a watch in the octets of a state, whose end stays; in any other nothing is stored.
#[tactic(auto, unfolding(crate::specs::Octets::watch_packed_in))]
pub fn pack_watch(watch: &Watch, state: &mut [u8])
    ensures { state.new ≡ watch_packed_in watch.now state.old }
{
    if state.len() == STATE_LENGTH {
        watch.put(state, WATCH);
    }
}
