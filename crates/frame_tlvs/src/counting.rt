// The walk over the events of a notification with the number of TLVs that it has skipped.
ghost use Rattle.std.specs.Prelude.{◌≡◌};
ghost use Rattle.std.specs.Iterator.{item_count};
ghost use Rattle.frame_tlvs.specs.Counting.{start, more, left, Steps};

use crate::notifications::event_step;
use crate::{Cursor, Event, Events};
use octets::Refusal;

// Before the first TLV of a body.
pub fn start() -> Cursor
    ensures { result ≡ start }
{
    Cursor { at: 0, skipped: 0 }
}

// One more. The largest number stays: a caller may hand in any, and a body never comes to it.
pub fn more(n: usize) -> usize
    ensures { result ≡ more n }
{
    n.saturating_add(1)
}

impl<'a> Events<'a> {
    // The events of a notification, whose octets after its number are these.
    pub fn new(body: &'a [u8]) -> Events<'a>
        ensures { (result.body.now ≡ body.now) × (result.cursor ≡ start) }
    {
        Events::from_cursor(body, start())
    }

    // The events from a cursor on.
    pub fn from_cursor(body: &'a [u8], cursor: Cursor) -> Events<'a>
        ensures { (result.body.now ≡ body.now) × (result.cursor ≡ cursor) }
    {
        Events { body, cursor }
    }

    // Where the walk stands: at the octet after what `next` gave last, with the number of TLVs that were skipped before that octet.
    // After what is broken it is the body's end, with the number as it was; where nothing more stood it stays.
    pub fn cursor(&self) -> Cursor
        ensures { result ≡ self.now.cursor }
    {
        self.cursor
    }
}

impl<'a> Iterator for Events<'a> {
    type Item = Result<Option<Event>, Refusal>;

    ghost next_gives = { Steps };

    ghost remaining = { item_count left };

    fn next(&mut self) -> Option<Result<Option<Event>, Refusal>> {
        let cursor = &mut self.cursor;
        match event_step(self.body, cursor.at) {
            None => None,
            Some(Err(refusal)) => {
                cursor.at = self.body.len();
                Some(Err(refusal))
            }
            Some(Ok(step)) => {
                cursor.at = step.end;
                if step.part.is_none() {
                    cursor.skipped = more(cursor.skipped);
                }
                Some(Ok(step.part))
            }
        }
    }
}
