// What every call ends with: the revision, what is owed, and what an Information frame is to say.
ghost use Rattle.std.specs.Prelude.{◌≡◌};
ghost use Rattle.link_end.specs.Parts.{with_own};
ghost use Rattle.link_end.specs.Sending.{fault_flag_of, flags_at, flags_to_send, before_of, sender_of, tlvs_to_send, octet_changed, own_in, own_after, dues, sends, after_sending};

use crate::{End, Own};
use frame::Flags;
use frame_body::{Found, Information};
use frame_writer::Sender;
use link_discovery::Discovery;
use link_loopback::Role;

pub(crate) fn octet_changed(before: Role, after: Role) -> bool
    ensures { result ≡ octet_changed before after }
{
    before.octet() != after.octet()
}

// What of an end is compared after a call.
#[derive(Clone, Copy)]
pub(crate) struct Before {
    role: Role,
    flags: u16,
}

impl Own {
    // What an end says of itself after a call: its revision, and what is owed, by whether an Information frame is allowed, whether
    // the State octet has changed, whether there is a change to tell, and whether one is due.
    pub(crate) fn tell(&mut self, allowed: bool, octet: bool, told: bool, due: bool)
        ensures { self.new ≡ own_in allowed octet told due self.old }
    {
        self.revision = link_limit::revised(octet, self.revision);
        self.owed = link_limit::owes(allowed, self.owed, due, told);
    }
}

impl End {
    #[tactic(auto, unfolding(crate::specs::Sending::fault_flag_of))]
    pub(crate) fn fault_flag(&self) -> bool
        ensures { result ≡ fault_flag_of self.now }
    {
        link_discovery::fault_flag(self.link.up, self.settings.configuration)
    }

    // The flags to be sent, by where discovery stands and whether the link-fault flag is set.
    pub(crate) fn flags_at(&self, standing: Discovery, fault: bool) -> u16
        ensures { result ≡ flags_at standing fault self.now }
    {
        let flags = Flags {
            fault,
            gasp: self.own.gasp,
            critical: self.own.critical,
            local: standing.local_field(),
            remote: link_discovery::remote_field(self.peer.kept, self.peer.held),
        };
        flags.number()
    }

    // The flags to be sent.
    #[tactic(auto, unfolding(crate::specs::Sending::flags_to_send))]
    pub fn flags_to_send(&self) -> u16
        ensures { result ≡ flags_to_send self.now }
    {
        self.flags_at(self.discovery(), self.fault_flag())
    }

    // What is compared after a call.
    pub(crate) fn before(&self) -> Before
        ensures { result ≡ before_of self.now }
    {
        Before {
            role: self.role,
            flags: self.flags_to_send(),
        }
    }

    // Who sends the end's frames, and with which flags.
    pub fn sender(&self) -> Sender
        ensures { result ≡ sender_of self.now }
    {
        Sender {
            source: self.settings.source,
            flags: self.flags_to_send(),
        }
    }

    // The TLVs of the Information frame; none with the link down.
    #[tactic(auto, unfolding(crate::specs::Sending::tlvs_to_send))]
    pub fn tlvs_to_send(&self) -> Found
        ensures { result ≡ tlvs_to_send self.now }
    {
        if self.link.up {
            return Found {
                local: Some(link_discovery::own_information(
                    self.settings,
                    self.own.revision,
                    self.role,
                )),
                remote: link_discovery::cleared_record(self.peer.held),
            };
        }
        Found {
            local: None,
            remote: None,
        }
    }

    // What the end owes after a call, by where discovery stands then, and what was before it.
    pub(crate) fn owe_at(&mut self, was: Before, due: bool, standing: Discovery)
        ensures { (b : End) → before_of b ≡ was → self.new ≡ with_own (own_after b due standing self.old) self.old }
    {
        let octet = octet_changed(was.role, self.role);
        let fault = self.fault_flag();
        let told = octet || was.flags != self.flags_at(standing, fault);
        self.own.tell(standing.allows(fault), octet, told, due);
    }

    // The revision, and what is owed, after a call, by what was before it.
    #[tactic(auto, unfolding(crate::specs::Sending::dues, crate::specs::Sending::allowed, crate::specs::Sending::changed, crate::specs::Sending::flags_to_send))]
    pub(crate) fn owe(&mut self, was: Before, due: bool)
        ensures { (b : End) → before_of b ≡ was → self.new ≡ dues b due self.old }
    {
        self.owe_at(was, due, self.discovery());
    }

    // Whether the owed Information frame may be written.
    #[tactic(auto, unfolding(crate::specs::Sending::sends))]
    pub fn sends(&self) -> bool
        ensures { result ≡ sends self.now }
    {
        self.own.owed && self.meter.has_room()
    }

    // The end after a call: its owed Information frame is written where it may be.
    #[tactic(auto, unfolding(crate::specs::Sending::sent))]
    pub fn pay(&mut self)
        ensures { self.new ≡ after_sending self.old }
    {
        if self.sends() {
            self.own.owed = false;
            self.meter.charge();
        }
    }
}
