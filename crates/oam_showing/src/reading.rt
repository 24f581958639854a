// A frame, shown as its header and its body's fixed number, alone or with the rows of its parts.
ghost use Rattle.std.specs.Prelude.{length};
ghost use Rattle.oam_showing.specs.Showing.{Showing};
ghost use Rattle.oam_showing.specs.Reading.{header_shown, frame_shown, all_shown, ShowingAll};

use crate::rows::{start_of, store_rows};
use crate::storing::show;
use frame::Header;

// The numbers of a header, as `read` tells them.
pub const HEADER_NUMBERS: usize = 5;

// The header and the body's fixed number, as far as the lent slice has room for them.
pub fn show_header(lent: &mut [u64], header: Header, number: u64) -> u64
    ensures { Showing (header_shown header number) lent.old result lent.new }
{
    let numbers: [u64; HEADER_NUMBERS] = [
        header.source,
        u64::from(header.flags),
        u64::from(header.code),
        number,
        u64::from(header.skipped),
    ];
    show(lent, 0, &numbers)
}

// Reads a frame. Of one that is accepted five numbers are stored in the header: source, flags, code, the body's fixed number
// (event number, command or OUI, else 0), and how many TLVs were skipped. A header shorter than that is 9.
pub fn read(frame: &[u8], header: &mut [u64]) -> u64
    ensures { Showing (frame_shown frame.now (length header.old)) header.old result header.new }
{
    if header.len() < HEADER_NUMBERS {
        return 9;
    }
    match frame::judgement_of(frame) {
        Err(refusal) => u64::from(refusal.number()),
        Ok(accepted) => {
            show_header(
                header,
                frame::header_of(frame, accepted.skipped),
                u64::from(frame::fixed_number(frame)),
            )
        }
    }
}

// Reads a frame with its parts. The header is stored as by `read`, and each part as a row of ten numbers: its kind, the
// octet after it, how many TLVs were skipped before it since the body's start, its numbers, and zeros. The first parts are
// passed over, and as many rows are stored, one after another, as the slice holds whole. The result is a refusal's number, or the count of all parts times 256.
//
// The kinds are 32 a Local TLV, 33 a Remote TLV (seven fields each), 34 an event (its type and six values), 35 a descriptor, 36
// a container with a value (descriptor, the octet where the value starts, its width), 37 a container with an indication
// (descriptor, width octet). It does not call `read`: that has one caller then, its entry, and the compiler makes it part of
// that.
pub fn read_all(frame: &[u8], first: usize, header: &mut [u64], rows: &mut [u64]) -> u64
    ensures { ShowingAll (all_shown frame.now first (length header.old) (length rows.old)) header.old rows.old result header.new rows.new }
{
    if header.len() < HEADER_NUMBERS {
        return 9;
    }
    match frame::judgement_of(frame) {
        Err(refusal) => u64::from(refusal.number()),
        Ok(accepted) => {
            show_header(
                header,
                frame::header_of(frame, accepted.skipped),
                u64::from(frame::fixed_number(frame)),
            );
            let code = frame[17];
            let count = store_rows(code, frame, start_of(code), first, rows);
            (count as u64) * 256
        }
    }
}
