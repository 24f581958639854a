// The Loopback Control frame and the organization specific frame.
ghost use Rattle.std.specs.Prelude.{◌≡◌};
ghost use Rattle.frame.specs.Frame.{loopback, organization};
ghost use Rattle.frame_writer.specs.Plain.{plain_organization, sized, some_octets};
ghost use Rattle.frame_writer.specs.Writing.{Writing, as_written, message_of};

use crate::padding::finish;
use crate::sender::Sender;
use crate::storing::put_number;
use octets::{BODY_START, DATA_START, Refusal, SHORTEST_FRAME, put_octets};

// The octets of a Loopback Control frame, if it has a plain form.
#[tactic(auto, unfolding(crate::specs::Plain::sized))]
fn loopback_octets(command: u8) -> Option<usize>
    ensures { result ≡ some_octets (sized (loopback command)) }
{
    match command {
        1 | 2 => Some(SHORTEST_FRAME),
        _ => None,
    }
}

// Writes a Loopback Control frame: command 1 starts a remote loopback, 2 stops it.
pub fn write_loopback(sender: Sender, command: u8, out: &mut [u8]) -> Result<usize, Refusal>
    ensures { Writing (message_of sender.source sender.flags (loopback command)) out.old (as_written result) out.new }
{
    sender.permits(loopback_octets(command), out.len())?;
    sender.put(4, out);
    put_number(out, BODY_START, 1, u64::from(command));
    Ok(finish(out, BODY_START + 1))
}

fn plain_organization(oui: u32, octets: usize) -> bool
    ensures { result ≡ plain_organization oui octets }
{
    oui < 0x1000000 && 39 <= octets && octets <= 1493
}

// The octets of an organization specific frame, if it has a plain form.
pub fn organization_octets(oui: u32, octets: &[u8]) -> Option<usize>
    ensures { result ≡ some_octets (sized (organization oui octets.now)) }
{
    if !plain_organization(oui, octets.len()) {
        return None;
    }
    Some(DATA_START + octets.len())
}

// Writes an organization specific frame: the OUI, 24 bits, and 39 to 1,493 octets of the organization's data.
pub fn write_organization(
    sender: Sender,
    oui: u32,
    octets: &[u8],
    out: &mut [u8],
) -> Result<usize, Refusal>
    ensures { Writing (message_of sender.source sender.flags (organization oui octets.now)) out.old (as_written result) out.new }
{
    sender.permits(organization_octets(oui, octets), out.len())?;
    sender.put(0xfe, out);
    put_number(out, BODY_START, 3, u64::from(oui));
    put_octets(out, DATA_START, octets);
    Ok(finish(out, DATA_START + octets.len()))
}
