// The limit on frames: ten over any eleven successive intervals, each of which a tick opens; and the count of ticks, of which every
// tenth closes a timer second. Nothing else steps a meter; its two numbers are given out and taken back for an end that is kept as
// numbers.
ghost use Rattle.std.specs.Prelude.{◌≡◌};
ghost use Rattle.link_limit.specs.Limit.{new_meter, meter_of, written_frames, is_bounded, has_room, charged_meter, closes, turned_meter};

use crate::{MOST_FRAMES, Meter, SECOND_TICKS};

// The intervals of a stretch, where the digit of the oldest stands, and where one more would.
const STRETCH_INTERVALS: u8 = 11;

const OLDEST: u64 = 0x10000000000;

const BEYOND: u64 = 0x100000000000;

impl Meter {
    // Before the first tick, with nothing written.
    pub fn new() -> Meter
        ensures { result ≡ new_meter }
    {
        Meter {
            ticks: 0,
            intervals: 0,
        }
    }

    // The frames written in the present interval and the ten before it.
    #[tactic(auto, using(crate::proofs::Newest::newest_step), unfolding(crate::specs::Limit::written_frames, crate::specs::Limit::frames_of_newest))]
    pub fn written_frames(&self) -> u8
        ensures { result ≡ written_frames self.now }
    {
        let mut sum = 0;
        let mut left = self.intervals;
        for _ in 0..STRETCH_INTERVALS {
            sum += (left % 16) as u8;
            left /= 16;
        }
        sum
    }

    // Whether one frame more may be written.
    #[tactic(auto, unfolding(crate::specs::Limit::has_room))]
    pub fn has_room(&self) -> bool
        ensures { result ≡ has_room self.now }
    {
        self.written_frames() < MOST_FRAMES
    }

    // One frame more is written; never more than ten are counted.
    #[tactic(auto, using(crate::proofs::Newest::newest_step), unfolding(crate::specs::Limit::charged_meter, crate::specs::Limit::has_room, crate::specs::Limit::written_frames))]
    pub fn charge(&mut self)
        ensures { self.new ≡ charged_meter self.old }
    {
        if self.has_room() {
            self.intervals += 1;
        }
    }

    // Whether the next tick closes a timer second.
    #[tactic(auto, unfolding(crate::specs::Limit::closes))]
    pub fn closes(&self) -> bool
        ensures { result ≡ closes self.now }
    {
        SECOND_TICKS - 1 <= self.ticks
    }

    // A tick: the oldest interval goes, and a new one is opened.
    #[tactic(auto, unfolding(crate::specs::Limit::turned_meter, crate::specs::Limit::closes))]
    pub fn turn(&mut self)
        ensures { self.new ≡ turned_meter self.old }
    {
        self.ticks = if self.closes() { 0 } else { self.ticks + 1 };
        self.intervals = self.intervals % OLDEST * 16;
    }

    // The ticks since a timer second closed.
    pub fn ticks(&self) -> u64
        ensures { result ≡ self.now.ticks }
    {
        self.ticks
    }

    // The digits of the newest eleven intervals.
    pub fn intervals(&self) -> u64
        ensures { result ≡ self.now.intervals }
    {
        self.intervals
    }

    // The meter of two numbers.
    pub fn of(ticks: u64, intervals: u64) -> Meter
        ensures { result ≡ meter_of ticks intervals }
    {
        Meter { ticks, intervals }
    }

    // Whether a meter can come to its numbers.
    #[tactic(auto, unfolding(crate::specs::Limit::is_bounded))]
    pub fn is_bounded(&self) -> bool
        ensures { result ≡ is_bounded self.now }
    {
        self.ticks < SECOND_TICKS && self.intervals < BEYOND && self.written_frames() <= MOST_FRAMES
    }
}
