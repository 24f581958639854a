// The rows of a listing, and what a frame's row says of it.
ghost use Rattle.std.specs.Prelude.{◌≡◌, ◌+◌, ◌≤◌, length, nat_le};
ghost use Rattle.octets.specs.Refusals.{number};
ghost use Rattle.frame.specs.Frame.{decode};
ghost use Rattle.text.specs.Put.{Put, Stored};
ghost use Rattle.text_listing.specs.Rows.{header, columns, row_of, entry_of};

use octets::Refusal;
use text::{NEWLINE, TAB};

// What a row says: the code and the flags of an accepted frame and how many TLVs were skipped, or the number of a refusal. It
// is a number and no `Refusal`, since `put_row` takes any.
#[derive(Clone, Copy)]
pub enum Entry {
    Accepted(u8, u16, usize),
    Refused(u8),
}

impl From<Refusal> for Entry {
    ghost use Rattle.text_listing.specs.declared.row.Entry.{Entry};

    ghost from_gives = { λ refusal entry. entry ≡ Entry.Refused (number refusal) };

    fn from(refusal: Refusal) -> Entry {
        Entry::Refused(refusal.number())
    }
}

// Room for any row: a number of 20 digits, a code of 3, flags of 5, the answer 0, a count of 20, four tabs and a newline.
pub const ROW: usize = 54;

// The header of every listing, at the output's front.
pub fn put_header(out: &mut [u8]) -> usize
    ensures { Put header out.old 0 result out.new }
{
    text::put_words(out, 0, b"no\tcode\tflags\tanswer\tskipped\n")
}

// How many octets a row has: the digits of its numbers, the answer 0 or three dashes, four tabs and a newline.
fn row_octets(number: u64, entry: Entry) -> usize
    ensures { result ≡ length (row_of number entry) }
{
    let digits = text::digits(number);
    match entry {
        Entry::Accepted(code, flags, skipped) => {
            digits
                + text::digits(code as u64)
                + text::digits(flags as u64)
                + text::digits(skipped as u64)
                + 6
        }
        Entry::Refused(answer) => digits + text::digits(answer as u64) + 8,
    }
}

// The columns of an accepted frame.
fn store_accepted(out: &mut [u8], at: usize, code: u8, flags: u16, skipped: usize) -> usize
    requires { at + length (columns (Entry.Accepted code flags skipped)) ≤ length out.old }
    ensures { Stored (columns (Entry.Accepted code flags skipped)) out.old at result out.new }
{
    let after_code = text::put_decimal(out, at, code as u64, TAB);
    let after_flags = text::put_decimal(out, after_code, flags as u64, TAB);
    let after_answer = text::put_decimal(out, after_flags, 0, TAB);
    text::put_decimal(out, after_answer, skipped as u64, NEWLINE)
}

// The columns of a refusal.
fn store_refused(out: &mut [u8], at: usize, answer: u8) -> usize
    requires { at + length (columns (Entry.Refused answer)) ≤ length out.old }
    ensures { Stored (columns (Entry.Refused answer)) out.old at result out.new }
{
    let after_dashes = text::put_words(out, at, b"-\t-\t");
    let after_answer = text::put_decimal(out, after_dashes, answer as u64, TAB);
    text::put_words(out, after_answer, b"-\n")
}

// The row of a number and an entry, from octet at.
pub(crate) fn store_row(out: &mut [u8], at: usize, number: u64, entry: Entry) -> usize
    requires { at + length (row_of number entry) ≤ length out.old }
    ensures { Stored (row_of number entry) out.old at result out.new }
{
    let after_number = text::put_decimal(out, at, number, TAB);
    match entry {
        Entry::Accepted(code, flags, skipped) => store_accepted(
            out,
            after_number,
            code,
            flags,
            skipped,
        ),
        Entry::Refused(answer) => store_refused(out, after_number, answer),
    }
}

// Whether a row fits into so much room. Its digits are counted only where there is not room for any row.
fn has_room(room: usize, number: u64, entry: Entry) -> bool
    ensures { result ≡ nat_le (length (row_of number entry)) room }
{
    if ROW <= room {
        return true;
    }
    row_octets(number, entry) <= room
}

// The same where it may not fit: then nothing is stored.
pub fn put_row(out: &mut [u8], at: usize, number: u64, entry: Entry) -> usize
    ensures { Put (row_of number entry) out.old at result out.new }
{
    if has_room(text::room_from(out, at), number, entry) {
        return store_row(out, at, number, entry);
    }
    at
}

// What a frame's row says of it.
pub fn frame_entry(frame: &[u8]) -> Entry
    ensures { result ≡ entry_of (decode frame.now) }
{
    match frame::judgement_of(frame) {
        Ok(accepted) => {
            let header = frame::header_of(frame, accepted.skipped);
            Entry::Accepted(header.code, header.flags, header.skipped as usize)
        }
        Err(refusal) => Entry::from(refusal),
    }
}
