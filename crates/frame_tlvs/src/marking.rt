// The walk over the TLVs of a body by their marks alone.
ghost use Rattle.std.specs.Prelude.{◌≡◌};
ghost use Rattle.std.specs.Iterator.{YieldsFirst, item_count};
ghost use Rattle.frame_tlvs.specs.Marks.{marks_of, left};

use crate::tlvs::mark_at;
use crate::{Kind, TlvMarks};
use octets::Refusal;

impl<'a> TlvMarks<'a> {
    // All TLVs of a body of a kind.
    pub fn new(kind: Kind, body: &'a [u8]) -> TlvMarks<'a>
        ensures { left result ≡ marks_of kind body.now }
    {
        TlvMarks { kind, body, at: 0 }
    }
}

impl<'a> Iterator for TlvMarks<'a> {
    type Item = Result<(usize, Option<u8>), Refusal>;

    ghost next_gives = { YieldsFirst left };

    ghost remaining = { item_count left };

    fn next(&mut self) -> Option<Result<(usize, Option<u8>), Refusal>> {
        let at = self.at;
        match mark_at(self.kind, self.body, at) {
            None => None,
            Some(Err(refusal)) => {
                self.at = self.body.len();
                Some(Err(refusal))
            }
            Some(Ok(mark)) => {
                self.at = mark.end;
                Some(Ok((at, mark.part)))
            }
        }
    }
}
