// The listing of frames that come as lines of hexadecimal text: a header, and a row for each line.
//
// The input is fed in pieces of any size, and the rows go to lent outputs of any size: `Progress::start` and `put_header`, then
// `feed` from place to place until the input is taken, then `finish` for a last line without newline. The working frame is
// lent too; with fewer than 1,514 octets it is too short for some frames, whose rows then say 9. A caller whose frames come
// otherwise puts their rows itself: `frame_entry` or `length_entry`, and `put_row`.
#![tactic(auto)]

mod feeding;
mod line;
mod row;

pub use feeding::Progress;
pub use line::length_entry;
pub use row::{Entry, ROW, frame_entry, put_header, put_row};
