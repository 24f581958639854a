// The Information frame.
ghost use Rattle.std.specs.Prelude.{◌≡◌, ◌+◌, ◌≤◌, length};
ghost use Rattle.std.proofs.lemmas.List.Edits.{sets};
ghost use Rattle.frame.specs.Frame.{information};
ghost use Rattle.frame_writer.specs.Encode.{information_octets, held_octets};
ghost use Rattle.frame_writer.specs.Plain.{plain_information, plain_parts, sized, some_octets};
ghost use Rattle.frame_writer.specs.Writing.{Writing, as_written, message_of, parts_of};

use crate::padding::finish;
use crate::sender::Sender;
use crate::storing::put_tlv;
use frame_body::{Found, INFORMATION_WIDTHS, Information};
use octets::{BODY_START, Refusal, SHORTEST_FRAME};

#[tactic(auto, unfolding(crate::specs::Plain::plain_information))]
fn plain_information(i: Information) -> bool
    ensures { result ≡ plain_information i }
{
    i.state < 8 && i.configuration < 32 && i.oampdu < 2048 && i.oui < 0x1000000
}

// Whether the TLVs to be written have a plain form; a Remote without a Local has none.
fn plain_found(found: Found) -> bool
    ensures { result ≡ plain_parts (parts_of found) }
{
    match found.local {
        Some(local) => plain_information(local) && found.remote.is_none_or(plain_information),
        None => found.remote.is_none(),
    }
}

// The octets of an Information frame, if it has a plain form: no TLV, one or two are within the shortest frame.
fn found_octets(found: Found) -> Option<usize>
    ensures { result ≡ some_octets (sized (information (parts_of found))) }
{
    plain_found(found).then_some(SHORTEST_FRAME)
}

// Stores an Information TLV of a type from octet at.
#[tactic(auto, unfolding(crate::specs::Encode::information_octets))]
fn put_information(out: &mut [u8], at: usize, t: u8, i: Information)
    requires { at + 16 ≤ length out.old }
    ensures { out.new ≡ sets out.old at (information_octets t i) }
{
    let values: [u64; 7] = [
        u64::from(i.version),
        u64::from(i.revision),
        u64::from(i.state),
        u64::from(i.configuration),
        u64::from(i.oampdu),
        u64::from(i.oui),
        u64::from(i.vendor),
    ];
    put_tlv(out, at, t, 16, &INFORMATION_WIDTHS, &values);
}

// Stores a TLV from octet at where there is one, and gives the octet after it.
fn put_held(out: &mut [u8], at: usize, t: u8, held: Option<Information>) -> usize
    requires { at + 16 ≤ length out.old }
    ensures next { result ≡ at + length (held_octets t held) }
    ensures short { result ≤ at + 16 }
    ensures output { out.new ≡ sets out.old at (held_octets t held) }
{
    let Some(information) = held else {
        return at;
    };
    put_information(out, at, t, information);
    at + 16
}

// Writes an Information frame with no TLV, the Local, or the Local and then the Remote.
pub fn write_information(sender: Sender, found: Found, out: &mut [u8]) -> Result<usize, Refusal>
    ensures { Writing (message_of sender.source sender.flags (information (parts_of found))) out.old (as_written result) out.new }
{
    sender.permits(found_octets(found), out.len())?;
    sender.put(0, out);
    let middle = put_held(out, BODY_START, 1, found.local);
    let end = put_held(out, middle, 2, found.remote);
    Ok(finish(out, end))
}
