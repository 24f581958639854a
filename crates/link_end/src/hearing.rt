// What is heard of a frame. Nothing else is taken for heard.
ghost use Rattle.std.specs.Prelude.{◌≡◌};
ghost use Rattle.frame.specs.Frame.{decode};
ghost use Rattle.link_end.specs.Hearing.{action_by, as_said, heard_at, said_by};

use crate::{Action, Heard};
use frame::Accepted;
use octets::Refusal;

// What the body asks, by its code.
fn action_by(frame: &[u8], code: u8) -> Action
    ensures { result ≡ action_by frame.now code }
{
    match code {
        0 => Action::Inform,
        1 => Action::Notify(frame::event_number(frame)),
        4 => Action::Command(frame::command_of(frame)),
        _ => Action::Other,
    }
}

// What is heard of an accepted frame, by what is known of it.
fn heard_at(frame: &[u8], accepted: Accepted) -> Heard
    ensures { result ≡ heard_at frame.now accepted.local accepted.skipped }
{
    let header = frame::header_of(frame, accepted.skipped);
    Heard {
        header,
        local: frame_body::local_at(frame::body(frame), accepted.local),
        action: action_by(frame, header.code),
    }
}

// What is heard of a frame, or why it is refused.
pub fn hear(frame: &[u8]) -> Result<Heard, Refusal>
    ensures { as_said result ≡ said_by (decode frame.now) }
{
    let accepted = frame::judgement_of(frame)?;
    Ok(heard_at(frame, accepted))
}
