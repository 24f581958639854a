// The limit on frames, and what waits for it: the frames written over eleven tick intervals, what a call leaves owed, and the
// tests of a request.
//
// Nothing here knows more of an end than the numbers and tests that it is handed.
#![tactic(auto)]

mod limit;
mod owing;
mod tests;

pub use owing::{following, owes, revised};
pub use tests::{Tests, fits_both};

// How many frames may be written in a stretch of eleven intervals, and the ticks of a timer second.
pub const MOST_FRAMES: u8 = 10;

pub const SECOND_TICKS: u64 = 10;

// The limit on frames: the ticks since a timer second closed, and the frames of the newest eleven intervals, each interval's count
// a digit of four bits, that of the present one the lowest. (The ticks are as wide: a gap between the two would be copied with them.)
#[derive(Clone, Copy)]
pub struct Meter {
    ticks: u64,
    intervals: u64,
}
