// What an entry comes to, as one number: of one that writes a frame or a line, and of a call on an end that is kept in octets,
// whose end is then stored.
#![tactic(auto)]

mod answers;

ghost use Rattle.std.specs.Prelude.{◌≡◌};
ghost use Rattle.link_end.specs.declared.News as News;
ghost use Rattle.link.specs.Outcomes.{outcome, as_outcome};
ghost use Rattle.oam_outcomes.specs.Written.{as_written_by, written_number};
ghost use Rattle.oam_outcomes.specs.Stepped.{kind_of, stepped_number, stepped_state};

pub use answers::Answer;
use link::Outcome;
use link_end::{End, News};

// The answer in the low 8 bits, the length above them.
pub fn written_number<A: Answer>(written: Result<usize, A>) -> u64
    ensures { result ≡ written_number (as_written_by A.answer written) }
{
    match written {
        Ok(octets) => (octets as u64) % 0x100000000 * 256,
        Err(refused) => u64::from(refused.answer()),
    }
}

fn kind_of(shown: News) -> u64
    ensures { result ≡ kind_of shown }
{
    match shown {
        News::Nothing => 0,
        News::Frame(_) => 1,
        News::Events(_, _) => 2,
    }
}

// Bits 0 to 7 the answer, 8 to 39 the length written, 40 to 47 the State octet after the call, 48 and 49 what is shown.
#[tactic(auto, unfolding(crate::specs::Stepped::stepped_number))]
pub fn stepped_number(outcome: Outcome<'_>) -> u64
    ensures { result ≡ stepped_number (as_outcome outcome.entry) }
{
    u64::from(outcome.answer)
        + (outcome.length as u64) % 0x100000000 * 256
        + u64::from(outcome.octet) * 0x10000000000
        + kind_of(outcome.shown) * 0x1000000000000
}

// What an entry itself refuses, before the machine is asked: the end stays as it is, and the number tells its State octet.
#[tactic(auto, unfolding(crate::specs::Stepped::stepped_number))]
pub fn refused_number(answer: u8, end: &End) -> u64
    ensures { result ≡ stepped_number (outcome end.now answer 0 News.Nothing) }
{
    u64::from(answer) + u64::from(end.role().octet()) * 0x10000000000
}

// How every call ends: the end after it is stored, unless it was refused.
#[tactic(auto, unfolding(crate::specs::Stepped::stepped_state))]
pub fn store_outcome(outcome: Outcome<'_>, state: &mut [u8]) -> u64
    ensures { (result ≡ stepped_number (as_outcome outcome.entry)) × (state.new ≡ stepped_state (as_outcome outcome.entry) state.old) }
{
    if outcome.answer == 0 {
        oam_packing::pack(outcome.end, state);
    }
    stepped_number(outcome)
}
