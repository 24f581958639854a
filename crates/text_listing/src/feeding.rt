// Feeding an input in pieces: the lines' rows as far as there is room for them.
ghost use Rattle.std.specs.Prelude.{◌≡◌, ◌+◌, ◌≤◌, length};
ghost use Rattle.text.specs.Put.{Stored};
ghost use Rattle.text.specs.Pieces.{stage, Feeds};
ghost use Rattle.text_listing.specs.Rows.{row_room};
ghost use Rattle.text_listing.specs.Feeding.{begun, present_row, lister, as_finished, Finishes};

use crate::line::{Line, values};
use crate::row::{ROW, store_row};
use octets::Refusal;
use text::{Lister, Place};

// Where a listing stands between two characters: the number of the present line, and that line so far.
#[derive(Clone, Copy)]
pub struct Progress {
    number: u64,
    line: Line,
}

impl Progress {
    // Before the first character.
    pub fn start() -> Progress
        ensures { result ≡ begun }
    {
        Progress {
            number: 1,
            line: Line::fresh(),
        }
    }

    // The row of the present line, from octet at, where there is room for any row. (One function of its own: so an entry stays in
    // registers on its way from the frame to its row.)
    fn store_present_row(self, frame: &[u8], out: &mut [u8], at: usize) -> usize
        requires { at + row_room ≤ length out.old }
        ensures { Stored (present_row (record { progress = self; frame = frame.now })) out.old at result out.new }
    {
        store_row(out, at, self.number, self.line.entry(frame))
    }

    // The piece's characters in order from a place on, with a row for each newline after what waits in the output. It stops
    // before a newline for whose row the output may be too short.
    pub fn feed(&mut self, place: Place, frame: &mut [u8], piece: &[u8], out: &mut [u8]) -> Place
        ensures { Feeds lister piece.now (stage self.old place frame.old out.old) (stage self.new result frame.new out.new) }
    {
        let values = values();
        let mut taken = place.taken;
        let mut waiting = place.waiting;
        // a line at a turn: how many characters it takes, only `scan` tells
        while taken < piece.len() {
            taken = self.line.scan(&values, frame, piece, taken);
            if taken == piece.len() || text::room_from(out, waiting) < ROW {
                break;
            }
            waiting = self.store_present_row(frame, out, waiting);
            self.number = self.number.wrapping_add(1);
            self.line = Line::fresh();
            taken += 1;
        }
        Place { taken, waiting }
    }

    // The row of a last line that has no newline, at the output's front: how many octets were written, or that the output may
    // be too short for the row.
    pub fn finish(self, frame: &[u8], out: &mut [u8]) -> Result<usize, Refusal>
        ensures { Finishes self frame.now out.old (as_finished result) out.new }
    {
        if !self.line.has_begun() {
            return Ok(0);
        }
        if out.len() < ROW {
            return Err(Refusal::ShortOutput);
        }
        Ok(self.store_present_row(frame, out, 0))
    }
}

impl Lister for Progress {
    ghost use Rattle.text_listing.specs.Rows.{row_room};
    ghost use Rattle.text_listing.specs.Feeding.{lister};
    ghost use Rattle.std.proofs.Common.{rules};

    ghost steps = { lister };

    ghost most = { row_room };

    ghost within = { λ s c. Prim.search rules };

    fn feed(&mut self, place: Place, frame: &mut [u8], piece: &[u8], out: &mut [u8]) -> Place {
        Progress::feed(self, place, frame, piece, out)
    }

    fn finish(self, frame: &[u8], out: &mut [u8]) -> Result<usize, Refusal> {
        Progress::finish(self, frame, out)
    }
}
