// Both windows at one tick.
ghost use Rattle.std.specs.Prelude.{◌≡◌};
ghost use Rattle.link_windows.specs.Watches.{phase_of, closes_second, told_count, taken_count};

use crate::{Arisen, Watch};
use link_limit::SECOND_TICKS;

// The types of the two events.
const ERRORED_FRAMES: u8 = 2;

const ERRORED_FRAME_SECONDS: u8 = 4;

// The first number that a total of errored seconds has no room for.
pub(crate) const BEYOND_TOTAL: u64 = 0x100000000;

impl Watch {
    // The ticks of the present second so far.
    #[tactic(auto, unfolding(crate::specs::Watches::phase_of))]
    pub fn phase(&self) -> u64
        ensures { result ≡ phase_of self.now }
    {
        u64::from(self.seconds.at) % SECOND_TICKS
    }

    // Whether this tick closes a second.
    #[tactic(auto, unfolding(crate::specs::Watches::closes_second))]
    fn closes_second(&self) -> bool
        ensures { result ≡ closes_second self.now }
    {
        self.phase() == SECOND_TICKS - 1
    }

    // One more tick with its count of bad frames, and the events that arise. The errored seconds that a tick adds are 1 where it
    // closes a second with a bad frame, and their total goes on at 0 after the largest number of four octets.
    #[tactic(auto, unfolding(crate::specs::Watches::taken_count))]
    pub fn take_count(&mut self, count: u64) -> Arisen
        ensures { told_count self.new result ≡ taken_count self.old count }
    {
        let before = *self;
        let closes = self.closes_second();
        let bad = self.bad || count != 0;
        let errored = u64::from(closes && bad);
        self.stamp = self.stamp.wrapping_add(1);
        self.bad = !closes && bad;
        self.frames.advance(count);
        self.seconds.advance(errored);
        self.seconds.total %= BEYOND_TOTAL;
        Arisen {
            frames: before
                .frames
                .arisen_in(ERRORED_FRAMES, self.stamp, count, &self.frames),
            seconds: before
                .seconds
                .arisen_in(ERRORED_FRAME_SECONDS, self.stamp, errored, &self.seconds),
        }
    }
}
