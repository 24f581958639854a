// Where a capture file's listing stands between two octets, and what comes of the octets that were awaited.
ghost use Rattle.std.specs.Prelude.{◌≡◌, ◌≤◌, length, slice_set};
ghost use Rattle.octets.specs.Refusals.{number};
ghost use Rattle.text_captures.specs.Feeding.{begun, wanted, is_stopped, ahead, awaiting_record, awaiting_frame, stops_with, after_file_header, stored_entry, empty_entry, after_frame, after_record_header, acted, left_to_say, Collects};

use crate::headers::{FILE_HEADER, RECORD_HEADER, is_capture, is_little, number};
use octets::Refusal;
use text_listing::Entry;

// What of the file is awaited: its header, a record's header, a record's octets; or nothing any more.
#[derive(Clone, Copy, PartialEq, Eq)]
pub enum Awaited {
    FileHeader,
    RecordHeader,
    Frame,
    Nothing,
}

// What is awaited, the number of the present row, the file's byte order, the octets that have come of what is awaited, and the
// present record's two lengths.
#[derive(Clone, Copy)]
pub struct Progress {
    awaited: Awaited,
    number: u64,
    little: bool,
    filled: usize,
    stored: u32,
    original: u32,
}

// The entry of octets that are stored, of so many that there were.
fn stored_entry(frame: &[u8], stored: u32, original: u32) -> Entry
    ensures { result ≡ stored_entry frame.now stored original }
{
    if stored < original {
        return Entry::from(Refusal::Shortened);
    }
    text_listing::length_entry(frame, stored as usize)
}

// The entry where no octet is stored, of so many that there were: a frame of no octets is too short.
fn empty_entry(original: u32) -> Entry
    ensures { result ≡ empty_entry original }
{
    if 0 < original {
        return Entry::from(Refusal::Shortened);
    }
    Entry::from(Refusal::WrongLength)
}

impl Progress {
    // Before the first octet.
    pub fn start() -> Progress
        ensures { result ≡ begun }
    {
        Progress {
            awaited: Awaited::FileHeader,
            number: 0,
            little: false,
            filled: 0,
            stored: 0,
            original: 0,
        }
    }

    // The number of the present row.
    pub(crate) fn number(self) -> u64
        ensures { result ≡ self.number }
    {
        self.number
    }

    // How many octets are awaited.
    fn wanted(self) -> usize
        ensures { result ≡ wanted self.awaited self.stored }
    {
        match self.awaited {
            Awaited::FileHeader => FILE_HEADER,
            Awaited::RecordHeader => RECORD_HEADER,
            Awaited::Frame => self.stored as usize,
            Awaited::Nothing => 0,
        }
    }

    fn is_stopped(self) -> bool
        ensures { result ≡ is_stopped self.awaited }
    {
        self.awaited == Awaited::Nothing
    }

    // How many octets come before the last one that is awaited.
    fn ahead(self) -> usize
        ensures { result ≡ ahead self }
    {
        self.wanted().saturating_sub(self.filled).saturating_sub(1)
    }

    // A record's header is awaited, with the next number.
    fn awaiting_record(&mut self, little: bool)
        ensures { self.new ≡ awaiting_record self.old little }
    {
        *self = Progress {
            awaited: Awaited::RecordHeader,
            number: self.number.wrapping_add(1),
            little,
            filled: 0,
            stored: 0,
            original: 0,
        };
    }

    // A record's octets are awaited.
    fn awaiting_frame(&mut self, stored: u32, original: u32)
        ensures { self.new ≡ awaiting_frame self.old stored original }
    {
        self.awaited = Awaited::Frame;
        self.filled = 0;
        self.stored = stored;
        self.original = original;
    }

    // No record can be found after this refusal, which is the last row.
    fn stops_with(&mut self, refusal: Refusal) -> Option<Entry>
        ensures { record { progress = self.new; said = result } ≡ stops_with self.old (number refusal) }
    {
        self.awaited = Awaited::Nothing;
        self.filled = 0;
        self.stored = 0;
        self.original = 0;
        Some(Entry::from(refusal))
    }

    // The file's header is in the working frame, where that has room for it.
    #[tactic(auto, unfolding(crate::specs::Feeding::after_file_header))]
    fn after_file_header(&mut self, frame: &[u8]) -> Option<Entry>
        ensures { record { progress = self.new; said = result } ≡ after_file_header self.old frame.now }
    {
        if frame.len() < FILE_HEADER {
            return self.stops_with(Refusal::ShortOutput);
        }
        let little = is_little(frame);
        if is_capture(little, frame) {
            self.awaiting_record(little);
            return None;
        }
        self.stops_with(Refusal::NotACapture)
    }

    // A record's octets have come.
    #[tactic(auto, unfolding(crate::specs::Feeding::after_frame))]
    fn after_frame(&mut self, frame: &[u8]) -> Option<Entry>
        ensures { record { progress = self.new; said = result } ≡ after_frame self.old frame.now }
    {
        let entry = stored_entry(frame, self.stored, self.original);
        self.awaiting_record(self.little);
        Some(entry)
    }

    // A record's header has come. Where no octet is stored, the record is whole with it.
    #[tactic(auto, unfolding(crate::specs::Feeding::after_record_header))]
    fn after_record_header(&mut self, frame: &[u8]) -> Option<Entry>
        ensures { record { progress = self.new; said = result } ≡ after_record_header self.old frame.now }
    {
        if frame.len() < RECORD_HEADER {
            return self.stops_with(Refusal::ShortOutput);
        }
        let stored = number(self.little, frame, 8);
        let original = number(self.little, frame, 12);
        if stored == 0 {
            self.awaiting_record(self.little);
            return Some(empty_entry(original));
        }
        self.awaiting_frame(stored, original);
        None
    }

    // What comes of the octets that were awaited, and the row that is said, if there is one.
    fn acted(&mut self, frame: &[u8]) -> Option<Entry>
        ensures { record { progress = self.new; said = result } ≡ acted self.old frame.now }
    {
        match self.awaited {
            Awaited::FileHeader => self.after_file_header(frame),
            Awaited::RecordHeader => self.after_record_header(frame),
            Awaited::Frame => self.after_frame(frame),
            Awaited::Nothing => None,
        }
    }

    // The last octet that is awaited.
    pub(crate) fn with_last(&mut self, frame: &mut [u8], octet: u8) -> Option<Entry>
        ensures value { record { progress = self.new; said = result } ≡ acted self.old frame.new }
        ensures frame_after { frame.new ≡ slice_set frame.old self.old.filled octet }
    {
        octets::put_octets(frame, self.filled, &[octet]);
        self.acted(frame)
    }

    // The octets that a piece has from `at`, up to the last one that is awaited or to the piece's end: up to where.
    pub(crate) fn collect(&mut self, frame: &mut [u8], piece: &[u8], at: usize) -> usize
        requires { at ≤ length piece.now }
        ensures { Collects piece.now self.old frame.old at self.new frame.new result }
    {
        if self.is_stopped() {
            return piece.len();
        }
        let count = self.ahead().min(piece.len() - at);
        octets::put_octets(frame, self.filled, &piece[at..at + count]);
        self.filled += count;
        at + count
    }

    // What is left to say at the file's end.
    pub(crate) fn left_to_say(self) -> Option<Entry>
        ensures { result ≡ left_to_say self }
    {
        match self.awaited {
            Awaited::FileHeader => Some(Entry::from(Refusal::NotACapture)),
            Awaited::RecordHeader if self.filled == 0 => None,
            Awaited::RecordHeader | Awaited::Frame => Some(Entry::from(Refusal::CutOff)),
            Awaited::Nothing => None,
        }
    }
}
