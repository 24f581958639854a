// The settings that a watch is made of, and what every watch keeps to that counts have made of a fresh one.
ghost use Rattle.std.specs.Prelude.{◌≡◌};
ghost use Rattle.link_windows.specs.Ranges.{frame_settings, seconds_settings, fresh_window, fresh_watch, as_watch, frames_proper, seconds_proper, proper};

use crate::counting::BEYOND_TOTAL;
use crate::{Watch, Window};
use link_limit::SECOND_TICKS;
use octets::Refusal;

// The shortest and longest windows in ticks, and the largest thresholds.
const LEAST_FRAME_WINDOW: u64 = 10;

const MOST_FRAME_WINDOW: u64 = 600;

const MOST_FRAME_THRESHOLD: u64 = 0xffffffff;

const LEAST_SECONDS_WINDOW: u64 = 100;

const MOST_SECONDS_WINDOW: u64 = 9000;

const MOST_SECONDS_THRESHOLD: u64 = 0xffff;

// Whether a window of errored frames may have this length and threshold; below, one of errored frame seconds.
#[tactic(auto, unfolding(crate::specs::Ranges::frame_settings))]
fn frame_settings(length: u64, threshold: u64) -> bool
    ensures { result ≡ frame_settings length threshold }
{
    (LEAST_FRAME_WINDOW..=MOST_FRAME_WINDOW).contains(&length)
        && (1..=MOST_FRAME_THRESHOLD).contains(&threshold)
}

#[tactic(auto, unfolding(crate::specs::Ranges::seconds_settings))]
fn seconds_settings(length: u64, threshold: u64) -> bool
    ensures { result ≡ seconds_settings length threshold }
{
    (LEAST_SECONDS_WINDOW..=MOST_SECONDS_WINDOW).contains(&length)
        && length % SECOND_TICKS == 0
        && (1..=MOST_SECONDS_THRESHOLD).contains(&threshold)
}

impl Window {
    // A window before its first tick, whatever its length and threshold.
    pub fn fresh(length: u16, threshold: u32) -> Window
        ensures { result ≡ fresh_window length threshold }
    {
        Window {
            length,
            threshold,
            at: 0,
            errors: 0,
            total: 0,
            events: 0,
        }
    }

    #[tactic(auto, unfolding(crate::specs::Ranges::frames_proper))]
    fn is_frames_proper(self) -> bool
        ensures { result ≡ frames_proper self }
    {
        frame_settings(u64::from(self.length), u64::from(self.threshold))
            && self.at < self.length
            && (self.at != 0 || self.errors == 0)
    }

    #[tactic(auto, unfolding(crate::specs::Ranges::seconds_proper))]
    fn is_seconds_proper(self) -> bool
        ensures { result ≡ seconds_proper self }
    {
        seconds_settings(u64::from(self.length), u64::from(self.threshold))
            && self.at < self.length
            && u64::from(self.errors) <= u64::from(self.at) / SECOND_TICKS
            && self.total < BEYOND_TOTAL
    }
}

impl Watch {
    // A fresh watch by the length and threshold of each window, or the refusal of settings out of range.
    #[tactic(auto, unfolding(crate::specs::Ranges::fresh_watch, crate::specs::Ranges::frame_settings, crate::specs::Ranges::seconds_settings))]
    pub fn fresh(
        frame_window: u64,
        frame_threshold: u64,
        seconds_window: u64,
        seconds_threshold: u64,
    ) -> Result<Watch, Refusal>
        ensures { as_watch result ≡ fresh_watch frame_window frame_threshold seconds_window seconds_threshold }
    {
        if !frame_settings(frame_window, frame_threshold)
            || !seconds_settings(seconds_window, seconds_threshold)
        {
            return Err(Refusal::OutOfRange);
        }
        let frames = Window::fresh(frame_window as u16, frame_threshold as u32);
        let seconds = Window::fresh(seconds_window as u16, seconds_threshold as u32);
        Ok(Watch::of(frames, seconds, 0, false))
    }

    // Whether a watch keeps to what every watch keeps to that counts have made of a fresh one; not each that does has such counts.
    // What its types alone keep to is not tested.
    #[tactic(auto, unfolding(crate::specs::Ranges::proper))]
    pub fn is_proper(self) -> bool
        ensures { result ≡ proper self }
    {
        self.frames.is_frames_proper()
            && self.seconds.is_seconds_proper()
            && (!self.bad || self.phase() != 0)
    }
}
