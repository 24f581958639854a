// Feeding a capture file in pieces: the records' rows as far as there is room for them.
ghost use Rattle.std.specs.Prelude.{◌≡◌};
ghost use Rattle.text.specs.Put.{Put};
ghost use Rattle.text.specs.Pieces.{stage, Feeds};
ghost use Rattle.text_listing.specs.Feeding.{as_finished};
ghost use Rattle.text_captures.specs.Feeding.{captures, row_said, Finishes};

use crate::progress::Progress;
use octets::Refusal;
use text::{Lister, Place};
use text_listing::{Entry, ROW};

// The row that is said, with that number, if there is one.
fn put_said(out: &mut [u8], at: usize, number: u64, said: Option<Entry>) -> usize
    ensures { Put (row_said number said) out.old at result out.new }
{
    match said {
        Some(entry) => text_listing::put_row(out, at, number, entry),
        None => at,
    }
}

impl Progress {
    // The piece's octets in order from a place on, with a row for each record, or for a file header that is refused, after what
    // waits in the output. It stops before the last octet of a header or a record where the output may be too short for a row.
    pub fn feed(&mut self, place: Place, frame: &mut [u8], piece: &[u8], out: &mut [u8]) -> Place
        ensures { Feeds captures piece.now (stage self.old place frame.old out.old) (stage self.new result frame.new out.new) }
    {
        let mut taken = place.taken;
        let mut waiting = place.waiting;
        // what is awaited at a turn: how many octets it takes, only `collect` tells
        while taken < piece.len() {
            taken = self.collect(frame, piece, taken);
            if taken == piece.len() || text::room_from(out, waiting) < ROW {
                break;
            }
            let number = self.number();
            let said = self.with_last(frame, piece[taken]);
            waiting = put_said(out, waiting, number, said);
            taken += 1;
        }
        Place { taken, waiting }
    }

    // What the file's end has to say, at the output's front: a file header that is short, or a record that is not whole. It is
    // how many octets were written, or that the output may be too short for a row.
    pub fn finish(self, out: &mut [u8]) -> Result<usize, Refusal>
        ensures { Finishes self out.old (as_finished result) out.new }
    {
        let Some(entry) = self.left_to_say() else {
            return Ok(0);
        };
        if out.len() < ROW {
            return Err(Refusal::ShortOutput);
        }
        Ok(text_listing::put_row(out, 0, self.number(), entry))
    }
}

impl Lister for Progress {
    ghost use Rattle.text_listing.specs.Rows.{row_room};
    ghost use Rattle.text_captures.specs.Feeding.{captures};
    ghost use Rattle.std.proofs.Common.{rules};

    ghost steps = { captures };

    ghost most = { row_room };

    ghost within = { λ s c. Prim.search rules };

    fn feed(&mut self, place: Place, frame: &mut [u8], piece: &[u8], out: &mut [u8]) -> Place {
        Progress::feed(self, place, frame, piece, out)
    }

    fn finish(self, _: &[u8], out: &mut [u8]) -> Result<usize, Refusal> {
        Progress::finish(self, out)
    }
}
