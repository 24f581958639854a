// What a request makes of an end, and why it is refused. A grant is asked for a frame of some octets (none where the request's
// values are out of range) and for a lent output of some octets; its refusals, in their order, are those of `link_limit`'s `Tests`,
// and leave the end.
ghost use Rattle.std.specs.Prelude.{◌≡◌};
ghost use Rattle.octets.specs.Refusals.{as_answer};
ghost use Rattle.link_end.specs.Parts.{with_role};
ghost use Rattle.link_end.specs.Sending.{before_of};
ghost use Rattle.link_end.specs.Granting.{answer_to, as_decided, granted, granted_start, granted_stop, granted_frame, granted_number, granted_response, octets_in, smaller_maximum};

use crate::End;
use crate::sending::Before;
use link_limit::Tests;
use link_loopback::Role;
use octets::Refusal;

impl End {
    // Why a request is refused. One that is not measured against the two maximum sizes never exceeds one.
    #[tactic(auto, unfolding(crate::specs::Granting::answer_to))]
    fn answer_to(
        &self,
        octets: Option<usize>,
        permitted: bool,
        measured: bool,
        lent: usize,
    ) -> Result<(), Refusal>
        ensures { as_answer result ≡ answer_to (octets_in octets) permitted measured lent self.now }
    {
        let octets = octets.unwrap_or(0);
        let tests = Tests {
            formed: 0 < octets,
            any: self.in_any(),
            permitted,
            fits: !measured
                || link_limit::fits_both(
                    octets,
                    self.settings.size,
                    link_peer::peer_maximum(self.peer.held),
                ),
            room: self.meter.has_room(),
            roomy: octets <= lent,
        };
        tests.decide()
    }

    // What every granted request ends with, by what was before it.
    #[tactic(auto, unfolding(crate::specs::Granting::granted))]
    fn grant(&mut self, was: Before)
        ensures { (b : End) → before_of b ≡ was → self.new ≡ granted b self.old }
    {
        self.owe(was, false);
        self.meter.charge();
    }

    // What a granted loopback command makes of the end: the role that it enters.
    fn enter(&mut self, role: Role)
        ensures { self.new ≡ granted self.old (with_role role self.old) }
    {
        let was = self.before();
        self.role = role;
        self.grant(was);
    }

    // A loopback start, whose frame is of the shortest length.
    #[tactic(auto, unfolding(crate::specs::Granting::granted_start, crate::specs::Granting::decided))]
    pub fn start(&mut self, lent: usize) -> Result<(), Refusal>
        ensures { as_decided self.new result ≡ granted_start lent self.old }
    {
        let permitted = self
            .role
            .may_start(self.settings.configuration, self.peer.held);
        self.answer_to(Some(octets::SHORTEST_FRAME), permitted, true, lent)?;
        self.enter(Role::Asking);
        Ok(())
    }

    // A loopback stop.
    #[tactic(auto, unfolding(crate::specs::Granting::granted_stop, crate::specs::Granting::decided))]
    pub fn stop(&mut self, lent: usize) -> Result<(), Refusal>
        ensures { as_decided self.new result ≡ granted_stop lent self.old }
    {
        let permitted = self.role.may_stop(self.settings.configuration);
        self.answer_to(Some(octets::SHORTEST_FRAME), permitted, true, lent)?;
        self.enter(Role::Ending);
        Ok(())
    }

    // A request for a frame of some octets that changes nothing else of the end.
    #[tactic(auto, unfolding(crate::specs::Granting::granted_frame, crate::specs::Granting::decided))]
    pub fn grant_frame(
        &mut self,
        octets: Option<usize>,
        permitted: bool,
        lent: usize,
    ) -> Result<(), Refusal>
        ensures { as_decided self.new result ≡ granted_frame (octets_in octets) permitted lent self.old }
    {
        self.answer_to(octets, permitted, true, lent)?;
        self.grant(self.before());
        Ok(())
    }

    // A notification of some octets: the next one carries the next number.
    #[tactic(auto, unfolding(crate::specs::Granting::granted_number, crate::specs::Granting::decided))]
    pub fn grant_number(&mut self, octets: Option<usize>, lent: usize) -> Result<(), Refusal>
        ensures { as_decided self.new result ≡ granted_number (octets_in octets) lent self.old }
    {
        self.answer_to(octets, true, true, lent)?;
        let was = self.before();
        self.own.number = link_limit::following(self.own.number);
        self.grant(was);
        Ok(())
    }

    // A Variable Response of some octets, which is cut to the smaller maximum size and so not measured.
    #[tactic(auto, unfolding(crate::specs::Granting::granted_response, crate::specs::Granting::decided))]
    pub fn grant_response(&mut self, octets: Option<usize>, lent: usize) -> Result<(), Refusal>
        ensures { as_decided self.new result ≡ granted_response (octets_in octets) lent self.old }
    {
        let permitted = link_peer::may_respond(self.settings.configuration, self.peer.held);
        self.answer_to(octets, permitted, false, lent)?;
        self.grant(self.before());
        Ok(())
    }

    // The smaller of the two maximum sizes.
    #[tactic(auto, unfolding(crate::specs::Granting::smaller_maximum))]
    pub fn smaller_maximum(&self) -> usize
        ensures { result ≡ smaller_maximum self.now }
    {
        usize::from(
            self.settings
                .size
                .min(link_peer::peer_maximum(self.peer.held)),
        )
    }
}
