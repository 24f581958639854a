// The listing of a capture file, of the classic pcap format: a header, and a row for each record.
//
// The file is fed in pieces of any size, and the rows go to lent outputs of any size: `Progress::start` and the
// `put_header` of `text_listing`, then `feed` from place to place until the file is taken, then `finish` for what its end has to say. The
// working frame, lent too, collects the file's header, each record's and each frame. With fewer than 1,514 octets it is too
// short for some frames, whose rows then say 9; with fewer than a header has, 9 is the last row.
#![tactic(auto)]

mod feeding;
mod headers;
mod progress;

pub use progress::Progress;
