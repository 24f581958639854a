// The parts of a watch, given out and taken back for a watch that is kept as octets.
ghost use Rattle.std.specs.Prelude.{◌≡◌};
ghost use Rattle.link_windows.specs.Watches.{watch_of};

use crate::{Watch, Window};

impl Watch {
    // The watch of four parts, whatever they are: every step is total, and whether it is a proper one is `is_proper`.
    pub fn of(frames: Window, seconds: Window, stamp: u16, bad: bool) -> Watch
        ensures { result ≡ watch_of frames seconds stamp bad }
    {
        Watch {
            frames,
            seconds,
            stamp,
            bad,
        }
    }

    // The window of frames.
    pub fn frames(&self) -> Window
        ensures { result ≡ self.now.frames }
    {
        self.frames
    }

    // The window of seconds.
    pub fn seconds(&self) -> Window
        ensures { result ≡ self.now.seconds }
    {
        self.seconds
    }

    // The time stamp, in tick intervals.
    pub fn stamp(&self) -> u16
        ensures { result ≡ self.now.stamp }
    {
        self.stamp
    }

    // Whether the present second has had a bad frame.
    pub fn bad(&self) -> bool
        ensures { result ≡ self.now.bad }
    {
        self.bad
    }
}
