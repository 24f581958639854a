// The six requests. None of them writes an owed Information frame: the next tick, receive or report does.
//
// The tests of a request, in their order: its values are in range (else `OutOfRange`), discovery is in SEND_ANY (`NotInSendAny`), the
// role, the mode and the peer's capability allow it (`Forbidden`), its frame is within both maximum sizes (`ExceedsMaximum`), fewer
// than ten frames are written (`TenFramesWritten`), and the output has room for it (`ShortOutput`).
ghost use Rattle.std.specs.Prelude.{◌≡◌, length, Ok};
ghost use Rattle.frame_writer.specs.Writing.{as_written};
ghost use Rattle.link_end.specs.declared.News.TheVariants.{Nothing};
ghost use Rattle.link.specs.Outcomes.{length_of, outcome, told};
ghost use Rattle.link.specs.Requests.{starting, stopping, requesting, notifying, telling, responding, request_of, request_output};

use crate::Step;
use link_end::{End, News};
use octets::Refusal;

// The loopback commands.
const ENABLE: u8 = 1;

const DISABLE: u8 = 2;

// What a granted request comes to. (A writer refuses none of an end that keeps to its ranges.)
fn sent(written: Result<usize, Refusal>) -> Step
    ensures { (e : End) → told e (Ok result) ≡ outcome e 0 (length_of (as_written written)) Nothing }
{
    Step {
        length: written.unwrap_or(0),
        shown: News::Nothing,
    }
}

// Starts a remote loopback.
pub fn start(end: &mut End, out: &mut [u8]) -> Result<Step, Refusal>
    ensures { (told end.new result ≡ request_of (starting end.old) (length out.old) end.old) × (out.new ≡ request_output (starting end.old) end.old out.old) }
{
    end.start(out.len())?;
    Ok(sent(frame_writer::write_loopback(end.sender(), ENABLE, out)))
}

// Stops a remote loopback.
pub fn stop(end: &mut End, out: &mut [u8]) -> Result<Step, Refusal>
    ensures { (told end.new result ≡ request_of (stopping end.old) (length out.old) end.old) × (out.new ≡ request_output (stopping end.old) end.old out.old) }
{
    end.stop(out.len())?;
    Ok(sent(frame_writer::write_loopback(end.sender(), DISABLE, out)))
}

// Asks for the peer's variables. A descriptor is one number, the branch above the leaf's sixteen bits.
pub fn request_variables(
    end: &mut End,
    descriptors: &[u32],
    out: &mut [u8],
) -> Result<Step, Refusal>
    ensures { (told end.new result ≡ request_of (requesting descriptors.now end.old) (length out.old) end.old) × (out.new ≡ request_output (requesting descriptors.now end.old) end.old out.old) }
{
    let octets = frame_writer::request_octets(descriptors);
    end.grant_frame(octets, end.settings().is_active(), out.len())?;
    Ok(sent(frame_writer::write_request(end.sender(), descriptors, out)))
}

// Notifies the peer of events, each seven numbers: its type and its six values.
pub fn notify(end: &mut End, events: &[u64], out: &mut [u8]) -> Result<Step, Refusal>
    ensures { (told end.new result ≡ request_of (notifying events.now end.old) (length out.old) end.old) × (out.new ≡ request_output (notifying events.now end.old) end.old out.old) }
{
    let number = end.own().number;
    let octets = frame_writer::notification_octets(number, events);
    end.grant_number(octets, out.len())?;
    Ok(sent(frame_writer::write_notification(end.sender(), number, events, out)))
}

// Sends an organization's data with its OUI.
pub fn send_organization(
    end: &mut End,
    oui: u32,
    octets: &[u8],
    out: &mut [u8],
) -> Result<Step, Refusal>
    ensures { (told end.new result ≡ request_of (telling oui octets.now end.old) (length out.old) end.old) × (out.new ≡ request_output (telling oui octets.now end.old) end.old out.old) }
{
    let size = frame_writer::organization_octets(oui, octets);
    end.grant_frame(size, true, out.len())?;
    Ok(sent(frame_writer::write_organization(end.sender(), oui, octets, out)))
}

// Answers descriptors by the attributes that the box holds: two numbers each, descriptor and width, and their values one after
// another.
pub fn respond(
    end: &mut End,
    attributes: &[u32],
    values: &[u8],
    descriptors: &[u32],
    out: &mut [u8],
) -> Result<Step, Refusal>
    ensures { (told end.new result ≡ request_of (responding attributes.now values.now descriptors.now end.old) (length out.old) end.old) × (out.new ≡ request_output (responding attributes.now values.now descriptors.now end.old) end.old out.old) }
{
    let size = end.smaller_maximum();
    let needed = frame_writer::needed_octets(out.len(), size, attributes, values, descriptors);
    end.grant_response(needed, out.len())?;
    Ok(sent(frame_writer::write_answers(end.sender(), size, attributes, values, descriptors, out)))
}
