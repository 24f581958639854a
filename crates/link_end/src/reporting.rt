// What a report makes of an end.
ghost use Rattle.std.specs.Prelude.{◌≡◌};
ghost use Rattle.link_end.specs.Reporting.{link_up, link_down, reported, reported_due};

use crate::{End, Report};

impl End {
    #[tactic(auto, unfolding(crate::specs::Reporting::link_up))]
    fn raise(&mut self)
        ensures { self.new ≡ link_up self.old }
    {
        if !self.link.up {
            self.link.up = true;
            self.link.lost = 0;
        }
    }

    #[tactic(auto, unfolding(crate::specs::Reporting::link_down, crate::specs::Parts::faulted))]
    fn drop_link(&mut self)
        ensures { self.new ≡ link_down self.old }
    {
        if self.link.up {
            self.fault();
            self.link.up = false;
        }
    }

    fn note(&mut self, report: Report)
        ensures { self.new ≡ reported report self.old }
    {
        match report {
            Report::LinkUp => self.raise(),
            Report::LinkDown => self.drop_link(),
            Report::DyingGasp(on) => self.own.gasp = on,
            Report::CriticalEvent(on) => self.own.critical = on,
        }
    }

    // The end after a report, with what is owed then.
    #[tactic(auto, unfolding(crate::specs::Reporting::reported_due))]
    pub fn report(&mut self, report: Report)
        ensures { self.new ≡ reported_due report self.old }
    {
        let was = self.before();
        self.note(report);
        self.owe(was, false);
    }
}
