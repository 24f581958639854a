// Numbers and words as text in a lent output, and the place of a call that takes an input in pieces.
//
// Every writer here promises the same: where its text fits from octet `at`, it is stored there and the octet after
// it is the result; where it does not fit, nothing is stored and `at` is the result.
#![tactic(auto)]

mod decimal;
mod pieces;
mod room;
mod words;

pub use decimal::{digits, put_decimal};
pub use pieces::{Lister, Place};
pub use room::room_from;
pub use words::put_words;

// What parts the fields of a line, and what ends it.
pub const TAB: u8 = b'\t';

pub const NEWLINE: u8 = b'\n';
