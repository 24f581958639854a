// The tests of a request, in the paper's order.
ghost use Rattle.std.specs.Prelude.{◌≡◌};
ghost use Rattle.octets.specs.Refusals.{as_answer};
ghost use Rattle.link_limit.specs.Tests.{fits_both, request_answer};

use octets::Refusal;

// The octets of a frame's FCS, which a maximum size counts.
const FCS_OCTETS: usize = 4;

// What a request is tested for.
#[derive(Clone, Copy)]
pub struct Tests {
    // its values are in range
    pub formed: bool,
    // discovery is in SEND_ANY
    pub any: bool,
    // the role, the mode and the peer's capability allow it
    pub permitted: bool,
    // its frame is within both maximum sizes
    pub fits: bool,
    // one frame more may be written
    pub room: bool,
    // the lent output is as long as the frame
    pub roomy: bool,
}

impl Tests {
    // The refusal of the first test that does not hold.
    #[tactic(auto, unfolding(crate::specs::Tests::request_answer))]
    pub fn decide(self) -> Result<(), Refusal>
        ensures { as_answer result ≡ request_answer self.formed self.any self.permitted self.fits self.room self.roomy }
    {
        if !self.formed {
            return Err(Refusal::OutOfRange);
        }
        if !self.any {
            return Err(Refusal::NotInSendAny);
        }
        if !self.permitted {
            return Err(Refusal::Forbidden);
        }
        if !self.fits {
            return Err(Refusal::ExceedsMaximum);
        }
        if !self.room {
            return Err(Refusal::TenFramesWritten);
        }
        if !self.roomy {
            return Err(Refusal::ShortOutput);
        }
        Ok(())
    }
}

// Whether a frame of some octets, and its FCS, is within both maximum sizes.
pub fn fits_both(octets: usize, own: u16, peer: u16) -> bool
    ensures { result ≡ fits_both octets own peer }
{
    octets.saturating_add(FCS_OCTETS) <= usize::from(own.min(peer))
}
