// Who sends a message: the test of the plain form, and the header.
ghost use Rattle.std.specs.Prelude.{◌≡◌, ◌≤◌, length};
ghost use Rattle.std.proofs.lemmas.List.Edits.{sets};
ghost use Rattle.octets.specs.Layout.{body_start};
ghost use Rattle.frame_writer.specs.Encode.{header_octets};
ghost use Rattle.frame_writer.specs.Plain.{plain_flags, plain_header};
ghost use Rattle.frame_writer.specs.Writing.{permitted};

use crate::storing::put_fields;
use frame::Flags;
use octets::{DESTINATION, LENGTH_TYPE, Refusal, SUBTYPE};

#[tactic(auto, unfolding(crate::specs::Plain::plain_flags))]
fn plain_flags(flags: u16) -> bool
    ensures { result ≡ plain_flags flags }
{
    let parts = Flags::from(flags);
    flags < 128 && parts.local != 3 && parts.remote != 3
}

// Who sends a message, and in what state of the link: what the header of every frame tells.
#[derive(Clone, Copy)]
pub struct Sender {
    // The source address, six octets as one number.
    pub source: u64,
    // The flags field, sixteen bits as they stand in the frame.
    pub flags: u16,
}

impl Sender {
    // Whether the header has a plain form.
    pub(crate) fn is_plain(self) -> bool
        ensures { result ≡ plain_header self.source self.flags }
    {
        self.source < 0x1000000000000 && plain_flags(self.flags)
    }

    // What every writer is answered before it touches the output, by the octets that its frame needs there, none where the body
    // has no plain form.
    pub(crate) fn permits(self, needed: Option<usize>, lent: usize) -> Result<usize, Refusal>
        ensures { result ≡ permitted (plain_header self.source self.flags) needed lent }
    {
        let octets = needed.ok_or(Refusal::OutOfRange)?;
        if !self.is_plain() {
            return Err(Refusal::OutOfRange);
        }
        if lent < octets {
            return Err(Refusal::ShortOutput);
        }
        Ok(octets)
    }

    // Stores the header of a frame with a code.
    #[tactic(auto, unfolding(crate::specs::Encode::header_octets))]
    pub(crate) fn put(self, code: u8, out: &mut [u8])
        requires { body_start ≤ length out.old }
        ensures { out.new ≡ sets out.old 0 (header_octets self.source self.flags code) }
    {
        let widths: [usize; 6] = [6, 6, 2, 1, 2, 1];
        let values: [u64; 6] = [
            DESTINATION,
            self.source,
            u64::from(LENGTH_TYPE),
            u64::from(SUBTYPE),
            u64::from(self.flags),
            u64::from(code),
        ];
        put_fields(out, 0, &widths, &values);
    }
}
