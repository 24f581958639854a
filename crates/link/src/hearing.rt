// A received frame.
ghost use Rattle.std.specs.Prelude.{◌≡◌, length};
ghost use Rattle.link.specs.Outcomes.{told};
ghost use Rattle.link.specs.Hearing.{receive_of, receive_output};

use crate::Step;
use crate::concluding::{conclude, too_short};
use link_end::End;
use octets::Refusal;

// One received frame: `ShortOutput` for an output of under 60 octets, then the refusal of a frame that is not accepted.
#[tactic(auto, unfolding(crate::specs::Hearing::receive_of, crate::specs::Hearing::receive_output))]
pub fn receive(end: &mut End, frame: &[u8], out: &mut [u8]) -> Result<Step, Refusal>
    ensures { (told end.new result ≡ receive_of frame.now (length out.old) end.old) × (out.new ≡ receive_output frame.now end.old out.old) }
{
    if too_short(out.len()) {
        return Err(Refusal::ShortOutput);
    }
    let heard = link_end::hear(frame)?;
    let shown = end.take(&heard).shown;
    Ok(conclude(end, shown, out))
}
