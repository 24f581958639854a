// Variables: the descriptors that are asked, the attributes that the box holds, and what answers a descriptor.
//
// A descriptor is one number, the branch above the leaf's sixteen bits. Attributes are lent as two numbers each, descriptor and
// width, and as octets, the values one after another in the same order. Nothing is written to either.
#![tactic(auto)]

mod answers;
mod attributes;
mod descriptors;

pub use answers::{
    fitted, formed_answers, left_after, measured_answers, place_of, room_within, width_octet,
};
pub use descriptors::plain_descriptors;

// The most attributes that a box holds, and the most octets of a value.
pub const MOST_ATTRIBUTES: usize = 64;

pub const MOST_WIDTH: u32 = 128;

// The most descriptors that one response is asked for.
pub const MOST_ASKED: usize = 498;

// The width octet of an attribute that is not held: bit 7, and 001's Variable Indication 0x21.
pub const NOT_SUPPORTED: u8 = 0xa1;

// Where a descriptor's value stands among the values of the attributes, and its width.
#[derive(Clone, Copy, Default)]
pub struct Place {
    pub at: usize,
    pub width: usize,
}
