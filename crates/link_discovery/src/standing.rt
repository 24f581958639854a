// Where discovery stands once no move applies, the role there, and when silence has lost the link.
ghost use Rattle.std.specs.Prelude.{◌≡◌};
ghost use Rattle.link_discovery.specs.Standing.{stands_at, is_any, role_in, is_lost, standing_number};

use crate::{Discovery, LOST_COUNT};
use link_loopback::Role;

// What discovery follows from.
#[derive(Clone, Copy)]
pub struct Seen {
    // the link is up
    pub up: bool,
    // the end is active
    pub active: bool,
    // a peer record is held
    pub held: bool,
    // the end is satisfied by it
    pub satisfied: bool,
    // the kept peer field is 2
    pub complete: bool,
}

impl Seen {
    // Where discovery stands once no move applies.
    pub fn stands_at(self) -> Discovery
        ensures { result ≡ stands_at self.up self.active self.held self.satisfied self.complete }
    {
        if !self.up {
            Discovery::Fault
        } else if !self.held {
            if self.active {
                Discovery::ActiveSendLocal
            } else {
                Discovery::PassiveWait
            }
        } else if !self.satisfied {
            Discovery::SendLocalRemote
        } else if self.complete {
            Discovery::SendAny
        } else {
            Discovery::SendLocalRemoteOk
        }
    }
}

impl Discovery {
    // Whether it is SEND_ANY, in which requests are taken and bodies obeyed.
    pub fn is_any(self) -> bool
        ensures { result ≡ is_any self }
    {
        matches!(self, Discovery::SendAny)
    }

    // Leaving SEND_ANY makes the role Idle.
    pub fn role_in(self, role: Role) -> Role
        ensures { result ≡ role_in self role }
    {
        match self {
            Discovery::SendAny => role,
            _ => Role::Idle,
        }
    }

    // The number that a caller knows each place by.
    pub fn number(self) -> u8
        ensures { result ≡ standing_number self }
    {
        self as u8
    }
}

// Whether one tick more in silence makes the lost-link count one that enters FAULT.
pub fn is_lost(lost: u8) -> bool
    ensures { result ≡ is_lost lost }
{
    LOST_COUNT - 1 <= lost
}
