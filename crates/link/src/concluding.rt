// How tick, receive and report end: the owed Information frame is written where it may be.
ghost use Rattle.std.specs.Prelude.{◌≡◌, length, Ok};
ghost use Rattle.link.specs.Outcomes.{told, too_short, concluded, concluded_output};

use crate::Step;
use link_end::{End, News};

// Whether an output is too short for a tick, a receive or a report.
pub(crate) fn too_short(octets: usize) -> bool
    ensures { result ≡ too_short octets }
{
    octets < octets::SHORTEST_FRAME
}

// Writes the owed Information frame where it may be written, and steps the end: how tick, receive and report end.
#[tactic(auto, unfolding(crate::specs::Outcomes::concluded, crate::specs::Outcomes::concluded_output, crate::specs::Outcomes::information_to_send))]
pub(crate) fn conclude(end: &mut End, shown: News, out: &mut [u8]) -> Step
    ensures { (told end.new (Ok result) ≡ concluded (length out.old) shown end.old) × (out.new ≡ concluded_output end.old out.old) }
{
    let mut length = 0;
    if end.sends() {
        let written = frame_writer::write_information(end.sender(), end.tlvs_to_send(), out);
        length = written.unwrap_or(0);
    }
    end.pay();
    Step { length, shown }
}
