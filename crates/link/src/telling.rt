// What a call comes to as a whole.
ghost use Rattle.std.specs.Prelude.{◌≡◌};
ghost use Rattle.link.specs.Outcomes.{as_outcome, told};

use crate::{Outcome, Step};
use link_end::{End, News};
use octets::Refusal;

// What a call comes to, by the end after it and its answer: a refusal writes nothing and shows nothing.
pub fn told(end: &End, step: Result<Step, Refusal>) -> Outcome<'_>
    ensures { as_outcome result ≡ told end.now step }
{
    let octet = end.role().octet();
    match step {
        Ok(step) => Outcome {
            end,
            answer: 0,
            length: step.length,
            octet,
            shown: step.shown,
        },
        Err(refusal) => Outcome {
            end,
            answer: refusal.number(),
            length: 0,
            octet,
            shown: News::Nothing,
        },
    }
}
