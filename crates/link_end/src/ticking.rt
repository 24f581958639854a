// What a tick makes of an end.
ghost use Rattle.std.specs.Prelude.{◌≡◌};
ghost use Rattle.link_discovery.specs.Sending.{allowed_in};
ghost use Rattle.link_end.specs.Parts.{with_own, discovery_of};
ghost use Rattle.link_end.specs.Sending.{octet_changed, fault_flag_of, own_in};
ghost use Rattle.link_end.specs.Ticking.{missed, losing, ticked, ticked_due};

use crate::End;
use crate::sending::octet_changed;
use link_discovery::Discovery;
use link_loopback::Role;

impl End {
    // The lost-link count.
    #[tactic(auto, unfolding(crate::specs::Ticking::missed, crate::specs::Parts::faulted))]
    fn miss(&mut self)
        ensures { self.new ≡ missed self.old }
    {
        if self.link.up {
            if link_discovery::is_lost(self.link.lost) {
                self.fault();
                self.link.lost = 0;
            } else {
                self.link.lost += 1;
            }
        }
    }

    // Whether this tick makes the lost-link count one that enters FAULT.
    #[tactic(auto, unfolding(crate::specs::Ticking::losing))]
    fn is_losing(&self) -> bool
        ensures { result ≡ losing self.now }
    {
        self.link.up && link_discovery::is_lost(self.link.lost)
    }

    // The count, the moves and the meter; and where discovery stands after them.
    #[tactic(auto, unfolding(crate::specs::Ticking::ticked, crate::specs::Ticking::missed, crate::specs::Parts::settled, crate::specs::Parts::faulted, crate::specs::Parts::discovery_of))]
    fn count(&mut self) -> Discovery
        ensures { (self.new ≡ ticked self.old) × (result ≡ discovery_of self.new) }
    {
        self.miss();
        let standing = self.discovery();
        self.settle(standing);
        self.meter.turn();
        standing
    }

    // What the end owes after a call that left the flags to be sent as they were.
    fn owe_octet(&mut self, was: Role, due: bool, standing: Discovery)
        ensures { self.new ≡ with_own (own_in (allowed_in standing (fault_flag_of self.old)) (octet_changed was self.old.role) (octet_changed was self.old.role) due self.old.own) self.old }
    {
        let octet = octet_changed(was, self.role);
        let allowed = standing.allows(self.fault_flag());
        self.own.tell(allowed, octet, octet, due);
    }

    // One tick, with what is owed then: the flags can have changed only where the link is lost.
    #[tactic(auto, unfolding(crate::specs::Ticking::ticked_due, crate::specs::Sending::dues, crate::specs::Sending::allowed, crate::specs::Sending::changed, crate::specs::Sending::flags_to_send))]
    pub fn tick(&mut self)
        ensures { self.new ≡ ticked_due self.old }
    {
        let due = self.meter.closes();
        if self.is_losing() {
            let was = self.before();
            let standing = self.count();
            self.owe_at(was, due, standing);
        } else {
            let was = self.role;
            let standing = self.count();
            self.owe_octet(was, due, standing);
        }
    }
}
