// One window at one tick.
ghost use Rattle.std.specs.Prelude.{◌≡◌};
ghost use Rattle.link_windows.specs.Windows.{ends, summed, arises, events_after, advanced, arisen_in};

use crate::Window;
use frame_tlvs::Event;

// The largest number that an event's errors have room for.
const MOST_ERRORS: u64 = 0xffffffff;

impl Window {
    // Whether this tick is the window's last.
    #[tactic(auto, unfolding(crate::specs::Windows::ends))]
    fn ends(&self) -> bool
        ensures { result ≡ ends self.now }
    {
        u32::from(self.length) <= u32::from(self.at) + 1
    }

    // The window's errors with those that this tick adds, as far as there is room for them.
    #[tactic(auto, unfolding(crate::specs::Windows::summed))]
    fn summed(&self, added: u64) -> u32
        ensures { result ≡ summed self.now added }
    {
        u64::from(self.errors)
            .saturating_add(added)
            .min(MOST_ERRORS) as u32
    }

    // Whether an event arises at this tick.
    #[tactic(auto, unfolding(crate::specs::Windows::arises))]
    fn arises(&self, added: u64) -> bool
        ensures { result ≡ arises self.now added }
    {
        self.ends() && self.threshold <= self.summed(added)
    }

    // The window's events after this tick.
    #[tactic(auto, unfolding(crate::specs::Windows::events_after))]
    fn events_after(&self, added: u64) -> u32
        ensures { result ≡ events_after self.now added }
    {
        if self.arises(added) {
            return self.events.wrapping_add(1);
        }
        self.events
    }

    // One more tick with the errors that it adds. Windows follow each other without a gap: where one ends the next begins.
    #[tactic(auto, unfolding(crate::specs::Windows::advanced, crate::specs::Windows::summed, crate::specs::Windows::ends))]
    pub(crate) fn advance(&mut self, added: u64)
        ensures { self.new ≡ advanced self.old added }
    {
        self.events = self.events_after(added);
        self.total = self.total.wrapping_add(added);
        if self.ends() {
            self.at = 0;
            self.errors = 0;
        } else {
            self.errors = self.summed(added);
            self.at += 1;
        }
    }

    // The event that arises at this tick, if one does, by the window before and after it.
    #[tactic(auto, unfolding(crate::specs::Windows::arisen_in))]
    pub(crate) fn arisen_in(
        &self,
        kind: u8,
        stamp: u16,
        added: u64,
        after: &Window,
    ) -> Option<Event>
        ensures { result ≡ arisen_in kind stamp self.now added after.now }
    {
        if !self.arises(added) {
            return None;
        }
        Some(Event {
            kind,
            timestamp: u64::from(stamp),
            window: u64::from(after.length),
            threshold: u64::from(after.threshold),
            errors: u64::from(self.summed(added)),
            error_total: after.total,
            event_total: u64::from(after.events),
        })
    }
}
