// The walk over the TLVs of a body with the number of those that it has skipped.
ghost use Rattle.std.specs.Prelude.{◌≡◌, IfErr};
ghost use Rattle.std.specs.Iterator.{item_count};
ghost use Rattle.octets.specs.declared.refusal.Refusal.TheVariants.{Broken};
ghost use Rattle.frame_tlvs.specs.Counting.{start};
ghost use Rattle.frame_body.specs.Counting.{left, Steps, as_judged_events, judged_events};

use crate::local_remote::information_step;
use crate::{InformationPart, Informations};
use frame_tlvs::{Cursor, Kind, TlvMarks};
use octets::Refusal;

impl<'a> Informations<'a> {
    // The parts of an Information body.
    pub fn new(body: &'a [u8]) -> Informations<'a>
        ensures { (result.body.now ≡ body.now) × (result.cursor ≡ start) }
    {
        Informations::from_cursor(body, frame_tlvs::start())
    }

    // The parts from a cursor on.
    pub fn from_cursor(body: &'a [u8], cursor: Cursor) -> Informations<'a>
        ensures { (result.body.now ≡ body.now) × (result.cursor ≡ cursor) }
    {
        Informations { body, cursor }
    }

    // Where the walk stands: at the octet after what `next` gave last, with the number of TLVs that were skipped before that octet.
    // After what is broken it is the body's end, with the number as it was; where nothing more stood it stays.
    pub fn cursor(&self) -> Cursor
        ensures { result ≡ self.now.cursor }
    {
        self.cursor
    }
}

impl<'a> Iterator for Informations<'a> {
    type Item = Result<Option<InformationPart>, Refusal>;

    ghost next_gives = { Steps };

    ghost remaining = { item_count left };

    fn next(&mut self) -> Option<Result<Option<InformationPart>, Refusal>> {
        let cursor = &mut self.cursor;
        match information_step(self.body, cursor.at) {
            None => None,
            Some(Err(refusal)) => {
                cursor.at = self.body.len();
                Some(Err(refusal))
            }
            Some(Ok(step)) => {
                cursor.at = step.end;
                if step.part.is_none() {
                    cursor.skipped = frame_tlvs::more(cursor.skipped);
                }
                Some(Ok(step.part))
            }
        }
    }
}

// How many TLVs are skipped among the events of a notification. Of an event only the type and the length are looked at.
//
// # Errors
//
// `Refusal::Broken` where a TLV is broken.
pub fn judged_events(body: &[u8]) -> Result<usize, Refusal>
    ensures judged { as_judged_events result ≡ judged_events body.now }
    ensures refusal { IfErr result (λ r. r ≡ Broken) }
{
    let mut skipped: usize = 0;
    for mark in TlvMarks::new(Kind::Events, body) {
        match mark? {
            (_, None) => skipped += 1,
            (_, Some(_)) => {}
        }
    }
    Ok(skipped)
}
