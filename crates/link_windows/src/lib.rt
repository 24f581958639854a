// The windows over bad frames, from which events arise: errored frames, and errored frame seconds.
//
// A watch is both windows of one end. It steps by the counts of bad frames alone, one at each accepted tick, and knows nothing of
// the end, of its link or of what is sent.
#![tactic(auto)]

mod advancing;
mod counting;
mod parts;
mod ranges;

use frame_tlvs::Event;

// One window: its length in ticks and its threshold; of the present window the ticks so far and the errors in them; and since
// fresh the errors of all ticks and the events that arose.
#[derive(Clone, Copy)]
pub struct Window {
    pub length: u16,
    pub threshold: u32,
    pub at: u16,
    pub errors: u32,
    pub total: u64,
    pub events: u32,
}

// The window of errored frames and that of errored frame seconds, the ticks since fresh modulo 65,536, and whether the present
// second has a bad frame.
#[derive(Clone, Copy)]
pub struct Watch {
    frames: Window,
    seconds: Window,
    stamp: u16,
    bad: bool,
}

// What arose in each window at one tick.
#[derive(Clone, Copy)]
pub struct Arisen {
    pub frames: Option<Event>,
    pub seconds: Option<Event>,
}
