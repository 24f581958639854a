// The values of a line, in range or not.
ghost use Rattle.std.specs.Prelude.{◌≡◌};
ghost use Rattle.text_eventlog.specs.Line.{in_range};

use frame_writer::MOST_EVENTS;

// No notification is written with an event beyond this position.
const LAST_POSITION: u64 = MOST_EVENTS as u64;

// Whether a number, a position and an event's seven numbers may stand in a line.
#[tactic(auto, unfolding(crate::specs::Line::in_range_up_to))]
pub(crate) fn in_range(number: u64, position: u64, event: &[u64]) -> bool
    ensures { result ≡ in_range number position event.now }
{
    number < 65536 && (1..=LAST_POSITION).contains(&position) && frame_writer::plain_seven(event)
}
