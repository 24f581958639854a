// A fresh end, where discovery stands, the parts of an end, and the steps that put one part anew.
ghost use Rattle.std.specs.Prelude.{◌≡◌};
ghost use Rattle.link_end.specs.Parts.{as_end, fresh_end, fresh_of, discovery_of, in_any, faulted, settled_in};

use crate::{End, Link, Own, Peer};
use link_discovery::{Discovery, Seen};
use link_limit::Meter;
use link_loopback::Role;
use link_peer::Settings;
use octets::Refusal;

impl Peer {
    // Nothing is kept.
    const NONE: Peer = Peer {
        kept: 0,
        held: None,
        last: None,
    };
}

impl End {
    #[tactic(auto, unfolding(crate::specs::Parts::fresh_end))]
    fn fresh_end(settings: Settings) -> End
        ensures { result ≡ fresh_end settings }
    {
        End {
            settings,
            meter: Meter::new(),
            link: Link { up: false, lost: 0 },
            peer: Peer::NONE,
            role: Role::Idle,
            own: Own {
                revision: 0,
                number: 0,
                gasp: false,
                critical: false,
                owed: false,
            },
        }
    }

    // A fresh end; `OutOfRange` for settings that are not sound.
    #[tactic(auto, unfolding(crate::specs::Parts::fresh_of))]
    pub fn fresh(settings: Settings) -> Result<End, Refusal>
        ensures { as_end result ≡ fresh_of settings }
    {
        if settings.is_sound() {
            return Ok(End::fresh_end(settings));
        }
        Err(Refusal::OutOfRange)
    }

    // Where discovery stands.
    #[tactic(auto, unfolding(crate::specs::Parts::discovery_of))]
    pub fn discovery(&self) -> Discovery
        ensures { result ≡ discovery_of self.now }
    {
        let seen = Seen {
            up: self.link.up,
            active: self.settings.is_active(),
            held: self.peer.held.is_some(),
            satisfied: self.settings.is_satisfied(self.peer.held),
            complete: self.peer.kept == 2,
        };
        seen.stands_at()
    }

    #[tactic(auto, unfolding(crate::specs::Parts::in_any))]
    pub(crate) fn in_any(&self) -> bool
        ensures { result ≡ in_any self.now }
    {
        self.discovery().is_any()
    }

    // What entering FAULT clears.
    #[tactic(auto, unfolding(crate::specs::Parts::faulted))]
    pub(crate) fn fault(&mut self)
        ensures { self.new ≡ faulted self.old }
    {
        self.peer = Peer::NONE;
        self.role = Role::Idle;
    }

    // The role after the moves, by where they have led.
    pub(crate) fn settle(&mut self, standing: Discovery)
        ensures { self.new ≡ settled_in standing self.old }
    {
        self.role = standing.role_in(self.role);
    }
}

// The parts of an end, each given out whole.
impl End {
    // What it is set to.
    pub fn settings(&self) -> Settings
        ensures { result ≡ self.now.settings }
    {
        self.settings
    }

    // The optics' side.
    pub fn link(&self) -> Link
        ensures { result ≡ self.now.link }
    {
        self.link
    }

    // What it keeps of its peer.
    pub fn peer(&self) -> Peer
        ensures { result ≡ self.now.peer }
    {
        self.peer
    }

    // Its role in a loopback.
    pub fn role(&self) -> Role
        ensures { result ≡ self.now.role }
    {
        self.role
    }

    // Its count of ticks and frames.
    pub fn meter(&self) -> Meter
        ensures { result ≡ self.now.meter }
    {
        self.meter
    }

    // What it says of itself.
    pub fn own(&self) -> Own
        ensures { result ≡ self.now.own }
    {
        self.own
    }
}
