// What is read, shown as numbers in slices that the caller lends: a frame, alone or with the parts of its body, the descriptors
// of a Variable Request, and a line of the sent-event log.
//
// The answer of a function is a refusal's number, or 0; `read_all` and `read_descriptors` have a count above it. What is refused
// leaves the lent slices as they were. The parts that rows are made of are those of the message that the frame says, and the
// numbers of skipped TLVs those of the walk over its body (`proofs/Taking.antt`).
#![tactic(auto)]

mod asking;
mod lines;
mod reading;
mod rows;
mod storing;

pub use asking::read_descriptors;
pub use lines::read_line;
pub use reading::{HEADER_NUMBERS, read, read_all, show_header};
pub use storing::show;
