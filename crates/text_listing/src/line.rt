// A line of hexadecimal text as far as it has come, its octets in a working frame that is lent.
ghost use Rattle.std.specs.Prelude.{◌≡◌, ◌+◌, ◌-◌, ◌*◌, ◌%◌, ◌≤◌, length};
ghost use Rattle.octets.specs.Refusals.{number};
ghost use Rattle.text_listing.specs.Taking.{value_of, Values, fresh, counted, held, keep, line_with, frame_with, has_begun, decoded_of, too_many, length_entry, decoded_entry};
ghost use Rattle.text_listing.specs.Feeding.{Scans, Stops};

use crate::row::{Entry, frame_entry};
use octets::{LONGEST_FRAME, Refusal};
use text::NEWLINE;

// The line so far: its whole octets, or these and the first digit of the next; or it has met a foreign character.
// One octet more than a frame has stands for any number above.
#[derive(Clone, Copy)]
pub enum Line {
    Whole(usize),
    Half(usize, u8),
    Foreign,
}

// The value of a digit 0-9a-f, and 16 for any other character.
fn value_of(c: u8) -> u8
    ensures { result ≡ value_of c }
{
    let from_zero = c.wrapping_sub(b'0');
    let from_a = c.wrapping_sub(b'a');
    if from_zero < 10 {
        return from_zero;
    }
    if from_a < 6 {
        return from_a + 10;
    }
    16
}

// The values of all characters. They are made once a piece, since each octet of a line asks for two.
pub(crate) fn values() -> [u8; 256]
    ensures { Values result }
{
    let mut values = [0u8; 256];
    for c in 0..256usize {
        values[c] = value_of(c as u8);
    }
    values
}

// The same as `value_of`, taken from the values of all characters.
fn value_from(values: &[u8], c: u8) -> u8
    requires { Values values.now }
    ensures { result ≡ value_of c }
{
    values[c as usize]
}

// The octets that a working frame holds: as many as it has, and no more than a frame.
fn held(frame: &[u8]) -> usize
    ensures { result ≡ held frame.now }
{
    frame.len().min(LONGEST_FRAME)
}

// One octet more, up to the one that stands for any number above.
fn counted(octets: usize) -> usize
    ensures { result ≡ counted octets }
{
    if octets <= LONGEST_FRAME {
        octets + 1
    } else {
        octets
    }
}

// Stores an octet where the working frame holds it.
fn keep(frame: &mut [u8], octets: usize, octet: u8)
    ensures { frame.new ≡ keep frame.old octets octet }
{
    if octets < held(frame) {
        frame[octets] = octet;
    }
}

// Why the working frame does not hold so many octets: it is lent too short, or they are more than a frame has.
fn too_many(length: usize) -> Refusal
    ensures { number result ≡ too_many length }
{
    if length <= LONGEST_FRAME {
        Refusal::ShortOutput
    } else {
        Refusal::WrongLength
    }
}

// The entry of a line or a record of so many octets. Where the working frame does not hold them, none of it is read.
pub fn length_entry(frame: &[u8], length: usize) -> Entry
    ensures { result ≡ length_entry frame.now length }
{
    if length <= held(frame) {
        return frame_entry(&frame[..length]);
    }
    Entry::from(too_many(length))
}

impl Line {
    pub(crate) fn fresh() -> Line
        ensures { result ≡ fresh }
    {
        Line::Whole(0)
    }

    pub(crate) fn has_begun(self) -> bool
        ensures { result ≡ has_begun self }
    {
        !matches!(self, Line::Whole(0))
    }

    // What the line comes to: so many octets, or no hexadecimal.
    fn decoded(self) -> Option<usize>
        ensures { result ≡ decoded_of self }
    {
        match self {
            Line::Whole(octets) => Some(octets),
            Line::Half(..) | Line::Foreign => None,
        }
    }

    // The entry of the line, where it ends.
    pub(crate) fn entry(self, frame: &[u8]) -> Entry
        ensures { result ≡ decoded_entry frame.now (decoded_of self) }
    {
        match self.decoded() {
            Some(length) => length_entry(frame, length),
            None => Entry::from(Refusal::NotALine),
        }
    }

    // One character more.
    fn take(&mut self, frame: &mut [u8], c: u8)
        ensures { (self.new ≡ line_with self.old c) × (frame.new ≡ frame_with frame.old self.old c) }
    {
        let value = value_of(c);
        if 15 < value {
            *self = Line::Foreign;
            return;
        }
        match *self {
            Line::Whole(octets) => *self = Line::Half(octets, value),
            Line::Half(octets, high) => {
                keep(frame, octets, (high % 16) * 16 + value);
                *self = Line::Whole(counted(octets));
            }
            Line::Foreign => {}
        }
    }

    // The octets that a piece has from `at` as two digits each, as far as the working frame holds them: up to where. None where
    // the line stands within an octet, or is foreign.
    fn take_octets(&mut self, values: &[u8], frame: &mut [u8], piece: &[u8], at: usize) -> usize
        requires { Values values.now × (at ≤ length piece.now) }
        ensures { Scans piece.now self.old frame.old at self.new frame.new result }
    {
        let line = *self;
        let Line::Whole(octets) = line else {
            return at;
        };
        // One bound for each turn, and one way out: a `for` that returns is slower by one instruction in fifteen.
        let count = held(frame)
            .saturating_sub(octets)
            .min((piece.len() - at) / 2);
        let mut i: usize = 0;
        while i < count {
            let high = value_from(values, piece[at + 2 * i]);
            let low = value_from(values, piece[at + 2 * i + 1]);
            if 15 < (high | low) {
                break;
            }
            frame[octets + i] = high * 16 + low;
            i += 1;
        }
        *self = Line::Whole(octets + i);
        at + 2 * i
    }

    // The characters that a piece has from `at`, up to a newline or the piece's end: up to where.
    pub(crate) fn scan(&mut self, values: &[u8], frame: &mut [u8], piece: &[u8], at: usize) -> usize
        requires { Values values.now × (at ≤ length piece.now) }
        ensures scans { Scans piece.now self.old frame.old at self.new frame.new result }
        ensures stops { Stops piece.now result }
    {
        let whole = self.take_octets(values, frame, piece, at);
        for i in whole..piece.len() {
            let c = piece[i];
            if c == NEWLINE {
                return i;
            }
            self.take(frame, c);
        }
        piece.len()
    }
}
