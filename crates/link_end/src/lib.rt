// One end of the link: its state, and the steps that calls make of it.
//
// The state is cut by who changes it, so that what a step does not touch stays as it is by computation. An end's parts are
// given out and taken back whole (`End::with` tests them), and nothing but a step of this crate changes one. Every step is
// total on any end, and every public function here that gives an end gives one that keeps to its ranges for one that does
// (shown in `theorems_reach`): a request's answer and its step are one function, and what is heard comes of a frame alone.
#![tactic(auto)]

mod granting;
mod hearing;
mod parts;
mod ranges;
mod reporting;
mod sending;
mod taking;
mod ticking;

use frame::Header;
use frame_body::Information;
pub use hearing::hear;
use link_limit::Meter;
use link_loopback::Role;
use link_peer::Settings;

// The optics' side: whether the link is up, and the lost-link count.
#[derive(Clone, Copy)]
pub struct Link {
    pub up: bool,
    pub lost: u8,
}

// What FAULT clears, but the role: the kept peer field, the peer record, the last event number received.
#[derive(Clone, Copy)]
pub struct Peer {
    pub kept: u16,
    pub held: Option<Information>,
    pub last: Option<u16>,
}

// What the end says of itself: its revision and next event number, the two critical flags, and whether an Information frame
// is owed.
#[derive(Clone, Copy)]
pub struct Own {
    pub revision: u16,
    pub number: u16,
    pub gasp: bool,
    pub critical: bool,
    pub owed: bool,
}

// The meter's numbers are as wide as the source address, so it stands beside the settings: an end that is copied is copied with
// its gaps.
#[derive(Clone, Copy)]
pub struct End {
    settings: Settings,
    meter: Meter,
    link: Link,
    peer: Peer,
    role: Role,
    own: Own,
}

// What the box reports of itself: the optics' link up or down, and a dying gasp or a critical event that has begun or ended.
#[derive(Clone, Copy)]
pub enum Report {
    LinkUp,
    LinkDown,
    DyingGasp(bool),
    CriticalEvent(bool),
}

// What a body asks of the machine.
#[derive(Clone, Copy)]
pub enum Action {
    Inform,
    Notify(u16),
    Command(u8),
    Other,
}

// What is heard of an accepted frame.
#[derive(Clone, Copy)]
pub struct Heard {
    header: Header,
    local: Option<Information>,
    action: Action,
}

// What a receive shows: nothing, the header of an accepted frame, or the header and the number of a notification whose
// events are new. A notification that shows its header only is a repeat or came outside SEND_ANY: its events are not taken.
#[derive(Clone, Copy)]
pub enum News {
    Nothing,
    Frame(Header),
    Events(Header, u16),
}

// What a frame comes to beside the end after it: whether a loopback command was obeyed, and what is shown.
#[derive(Clone, Copy)]
pub struct Effect {
    pub obeyed: bool,
    pub shown: News,
}
