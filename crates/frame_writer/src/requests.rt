// The Variable Request frame. A descriptor is one number, the branch above the leaf's sixteen bits.
ghost use Rattle.std.specs.Prelude.{◌≡◌, ◌+◌, ◌*◌, ◌≤◌, length};
ghost use Rattle.std.proofs.lemmas.List.Edits.{sets};
ghost use Rattle.frame.specs.Frame.{request};
ghost use Rattle.octets.specs.Octets.{oct};
ghost use Rattle.octets.specs.Layout.{body_start};
ghost use Rattle.frame_writer.specs.Encode.{joined};
ghost use Rattle.frame_writer.specs.Plain.{sized, some_octets};
ghost use Rattle.frame_writer.specs.Writing.{Writing, as_written, message_of};

use crate::padding::{at_least_shortest, finish};
use crate::sender::Sender;
use crate::storing::put_number;
use frame_variables::plain_descriptors;
use octets::{BODY_START, Refusal};

// The most descriptors of a Variable Request.
const MOST_DESCRIPTORS: usize = 32;

// The octets of a Variable Request's frame, if it has a plain form.
pub fn request_octets(descriptors: &[u32]) -> Option<usize>
    ensures { result ≡ some_octets (sized (request descriptors.now)) }
{
    if !plain_descriptors(MOST_DESCRIPTORS, descriptors) {
        return None;
    }
    Some(at_least_shortest(BODY_START + 3 * descriptors.len()))
}

// Stores descriptors one after another from the body's start, and gives the octet after them.
fn put_descriptors(out: &mut [u8], descriptors: &[u32]) -> usize
    requires { body_start + 3 * length descriptors.now ≤ length out.old }
    ensures end { result ≡ body_start + 3 * length descriptors.now }
    ensures output { out.new ≡ sets out.old body_start (joined (oct 3) descriptors.now) }
{
    let mut at = BODY_START;
    for &descriptor in descriptors {
        put_number(out, at, 3, u64::from(descriptor));
        at += 3;
    }
    at
}

// Writes a Variable Request frame of 1 to 32 descriptors.
pub fn write_request(sender: Sender, descriptors: &[u32], out: &mut [u8]) -> Result<usize, Refusal>
    ensures { Writing (message_of sender.source sender.flags (request descriptors.now)) out.old (as_written result) out.new }
{
    sender.permits(request_octets(descriptors), out.len())?;
    sender.put(2, out);
    let end = put_descriptors(out, descriptors);
    Ok(finish(out, end))
}
