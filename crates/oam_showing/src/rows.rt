// The parts of a frame's body as rows of ten numbers, stored in a slice that the caller lends. One walk takes the parts in
// order, TLVs by the iterators that count those that are skipped, the rest by the steps of their kind, and stores each row at once.
ghost use Rattle.std.specs.Prelude.{◌≡◌, ◌+◌, ◌≤◌, ◌<◌, ◌^◌, ℕ, List, length};
ghost use Rattle.std.proofs.lemmas.List.Edits.{sets};
ghost use Rattle.frame_body.specs.Information.{information_values};
ghost use Rattle.oam_showing.specs.Parts.{row_numbers, row};
ghost use Rattle.oam_showing.specs.Storing.{part_row, event_row_of, descriptor_row_of, content_row, tlv_next, part_next, row_at, rows_from, start_of, row_stored, StoringItem, StoringRow, StoringRows};

use frame_body::{Container, Content, Information, InformationPart, Informations};
use frame_tlvs::{Cursor, Event, Events, Placed};
use octets::{BODY_START, EVENTS_START, Refusal};

// The numbers of a row: the part's kind, the octet after it, how many TLVs were skipped before it, and what the part says, then
// zeros.
const ROW_NUMBERS: usize = 10;

type Row = [u64; ROW_NUMBERS];

// A part of a body, of which a row is made.
trait Part: Copy {
    ghost in_row: { Self → ℕ → ℕ → List ℕ };

    // Its row, with the cursor after it.
    fn row(self, after: Cursor) -> Row
        ensures { result ≡ in_row self after.at after.skipped };
}

// The row of a part's kind, the cursor after it, and its numbers with their zeros.
fn row(kind: u64, after: Cursor, numbers: [u64; 7]) -> Row
    ensures { result ≡ row kind after.at after.skipped numbers }
{
    let [a, b, c, d, e, f, g] = numbers;
    [
        kind,
        after.at as u64,
        after.skipped as u64,
        a,
        b,
        c,
        d,
        e,
        f,
        g,
    ]
}

fn information_values(i: Information) -> [u64; 7]
    ensures { result ≡ information_values i }
{
    [
        u64::from(i.version),
        u64::from(i.revision),
        u64::from(i.state),
        u64::from(i.configuration),
        u64::from(i.oampdu),
        u64::from(i.oui),
        u64::from(i.vendor),
    ]
}

impl Part for InformationPart {
    ghost in_row = { part_row };

    fn row(self, after: Cursor) -> Row {
        match self {
            InformationPart::Local(i) => row(32, after, information_values(i)),
            InformationPart::Remote(i) => row(33, after, information_values(i)),
        }
    }
}

impl Part for Event {
    ghost in_row = { event_row_of };

    fn row(self, after: Cursor) -> Row {
        let numbers = [
            u64::from(self.kind),
            self.timestamp,
            self.window,
            self.threshold,
            self.errors,
            self.error_total,
            self.event_total,
        ];
        row(34, after, numbers)
    }
}

// A descriptor.
impl Part for u32 {
    ghost in_row = { descriptor_row_of };

    fn row(self, after: Cursor) -> Row {
        row(35, after, [u64::from(self), 0, 0, 0, 0, 0, 0])
    }
}

// A value's octets end before the next container.
impl Part for Container {
    ghost in_row = { content_row };

    fn row(self, after: Cursor) -> Row {
        let descriptor = u64::from(self.descriptor);
        match self.content {
            Content::Value(width) => {
                let start = after.at.saturating_sub(width);
                let numbers = [descriptor, start as u64, width as u64, 0, 0, 0, 0];
                row(36, after, numbers)
            }
            Content::Indication(octet) => {
                row(37, after, [descriptor, u64::from(octet), 0, 0, 0, 0, 0])
            }
        }
    }
}

// One by one: `copy_from_slice` is a call of the C library's `memmove`, which the archive is not to need.
fn store_numbers(lent: &mut [u64], to: usize, row: &Row)
    requires { to + row_numbers ≤ length lent.old }
    ensures { lent.new ≡ sets lent.old to row.now }
{
    let &[kind, next, skipped, a, b, c, d, e, f, g] = row;
    lent[to] = kind;
    lent[to + 1] = next;
    lent[to + 2] = skipped;
    lent[to + 3] = a;
    lent[to + 4] = b;
    lent[to + 5] = c;
    lent[to + 6] = d;
    lent[to + 7] = e;
    lent[to + 8] = f;
    lent[to + 9] = g;
}

// Where rows go: the slice that is lent for them, how many parts are passed over, and how many parts there were.
#[derive(Drop)]
struct Rows<'a> {
    lent: &'a mut [u64],
    first: usize,
    count: usize,
}

impl Rows<'_> {
    // Takes the row of the next part: it is not stored where the part is among the first ones, nor where the slice is full.
    fn store(&mut self, row: Row)
        requires { self.old.count + 1 < 2 ^ 64 }
        ensures stored { self.new.lent.now ≡ row_stored self.old.count self.old.first row self.old.lent.now }
        ensures counted { self.new.count ≡ self.old.count + 1 }
        ensures same { (self.new.first ≡ self.old.first) × (self.new.lent.ghost_name ≡ self.old.lent.ghost_name) }
    {
        let count = self.count;
        self.count += 1;
        if count < self.first {
            return;
        }
        let index = count - self.first;
        if index < self.lent.len() / ROW_NUMBERS {
            store_numbers(self.lent, index * ROW_NUMBERS, &row);
        }
    }

    // Takes the part that was found at a cursor, and gives the cursor after it.
    fn take<P: Part>(
        &mut self,
        found: Option<Result<Placed<P>, Refusal>>,
        cursor: Cursor,
    ) -> Option<Cursor>
        requires { self.old.count + 1 < 2 ^ 64 }
        ensures taken { StoringRow cursor self.old.first (part_next P.in_row found) self.old.count self.old.lent.now result self.new.count self.new.lent.now }
        ensures same { (self.new.first ≡ self.old.first) × (self.new.lent.ghost_name ≡ self.old.lent.ghost_name) }
    {
        let Some(Ok(placed)) = found else {
            return None;
        };
        let after = Cursor {
            at: placed.end,
            skipped: cursor.skipped,
        };
        self.store(placed.part.row(after));
        Some(after)
    }

    // The same of what an iterator over TLVs gave, with the cursor at which it then stands: the iterator counts what is skipped.
    fn take_tlv<P: Part>(
        &mut self,
        given: Option<Result<Option<P>, Refusal>>,
        after: Cursor,
    ) -> Option<Cursor>
        requires { self.old.count + 1 < 2 ^ 64 }
        ensures taken { StoringItem after self.old.first (tlv_next P.in_row given after.at) self.old.count self.old.lent.now result self.new.count self.new.lent.now }
        ensures same { (self.new.first ≡ self.old.first) × (self.new.lent.ghost_name ≡ self.old.lent.ghost_name) }
    {
        let Some(Ok(known)) = given else {
            return None;
        };
        if let Some(part) = known {
            self.store(part.row(after));
        }
        Some(after)
    }

    // What stands at a cursor of a frame by its code. Codes beyond 3 have no parts.
    fn take_at(&mut self, code: u8, frame: &[u8], cursor: Cursor) -> Option<Cursor>
        requires { self.old.count + 1 < 2 ^ 64 }
        ensures taken { StoringRow cursor self.old.first (row_at code frame.now cursor.at) self.old.count self.old.lent.now result self.new.count self.new.lent.now }
        ensures same { (self.new.first ≡ self.old.first) × (self.new.lent.ghost_name ≡ self.old.lent.ghost_name) }
    {
        match code {
            0 => {
                let mut parts = Informations::from_cursor(frame, cursor);
                let given = parts.next();
                self.take_tlv(given, parts.cursor())
            }
            1 => {
                let mut events = Events::from_cursor(frame, cursor);
                let given = events.next();
                self.take_tlv(given, events.cursor())
            }
            2 => self.take(frame_body::descriptor_step(frame, cursor.at), cursor),
            3 => self.take(frame_body::container_step(frame, cursor.at), cursor),
            _ => None,
        }
    }
}

// The octet where the parts of a frame begin.
pub(crate) fn start_of(code: u8) -> usize
    ensures { result ≡ start_of code }
{
    if code == 1 { EVENTS_START } else { BODY_START }
}

// Stores the rows of the parts from an octet on, but for the first ones, as many as the slice holds whole, and counts all.
pub(crate) fn store_rows(
    code: u8,
    frame: &[u8],
    from: usize,
    first: usize,
    rows: &mut [u64],
) -> usize
    ensures { StoringRows (rows_from code frame.now from) first rows.old result rows.new }
{
    let mut rows = Rows {
        lent: rows,
        first,
        count: 0,
    };
    let mut cursor = Cursor {
        at: from,
        skipped: 0,
    };
    while let Some(after) = rows.take_at(code, frame, cursor) {
        cursor = after;
    }
    rows.count
}
