// Ticks.
ghost use Rattle.std.specs.Prelude.{◌≡◌, length};
ghost use Rattle.link.specs.Outcomes.{told};
ghost use Rattle.link.specs.Ticks.{tick_of, tick_output};

use crate::Step;
use crate::concluding::{conclude, too_short};
use link_end::{End, News};
use octets::Refusal;

// One tick of 100 ms. An output of under 60 octets is refused as `ShortOutput`, as by a report and a receive.
#[tactic(auto, unfolding(crate::specs::Ticks::tick_of, crate::specs::Ticks::tick_output))]
pub fn tick(end: &mut End, out: &mut [u8]) -> Result<Step, Refusal>
    ensures { (told end.new result ≡ tick_of (length out.old) end.old) × (out.new ≡ tick_output end.old out.old) }
{
    if too_short(out.len()) {
        return Err(Refusal::ShortOutput);
    }
    end.tick();
    Ok(conclude(end, News::Nothing, out))
}
