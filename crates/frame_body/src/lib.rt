// The bodies of OAM frames: the Information TLVs, descriptors and containers that stand in their octets.
//
// The parts of a body are taken in order: those of an Information body by the iterator `Informations`, those of a notification by
// `Events` of `frame_tlvs`; descriptors and containers one a call, by `descriptor_step` and `container_step`, which begin at octet
// 0 and go on at the octet that each step gives, until the end. A step judges what stands at its octet alone: a second Local is
// shown as a Local, and it is `judged_information` that refuses such a body.
//
// Nothing is copied out of a body but numbers: what is longer is a part of the caller's own octets.
#![tactic(auto)]

mod counting;
mod lists;
mod local_remote;
mod variables;

pub use counting::judged_events;
use frame_tlvs::Cursor;
pub use lists::{containers_are_whole, descriptors_are_whole};
pub use local_remote::{information_step, judged_information, local_at};
pub use variables::{container_step, container_value, descriptor_step};

// The fields of one Information TLV, with the bits that are ignored as they were received; `oampdu` is the OAMPDU
// configuration, whose low 11 bits are the maximum size.
#[derive(Clone, Copy, Default)]
pub struct Information {
    pub version: u8,
    pub revision: u16,
    pub state: u8,
    pub configuration: u8,
    pub oampdu: u16,
    pub oui: u32,
    pub vendor: u32,
}

// The width in octets of each field, in their order.
pub const INFORMATION_WIDTHS: [usize; 7] = [1, 2, 1, 1, 2, 3, 4];

// The Local and the Remote Information TLV of a frame.
#[derive(Clone, Copy)]
pub struct Found {
    pub local: Option<Information>,
    pub remote: Option<Information>,
}

// A whole Information body: where its Local TLV stands, the body's length where it has none, and how many TLVs are skipped in it.
#[derive(Clone, Copy)]
pub struct Whole {
    pub local: usize,
    pub skipped: usize,
}

// A part of an Information body.
#[derive(Clone, Copy)]
pub enum InformationPart {
    Local(Information),
    Remote(Information),
}

// The parts of an Information body in order, from a cursor on: each item is a Local or Remote, or `None` for a TLV of unknown type,
// which is skipped. What is broken comes as `Refusal::Broken`, and nothing comes after it.
#[derive(Clone, Drop)]
pub struct Informations<'a> {
    body: &'a [u8],
    cursor: Cursor,
}

// A container: its descriptor, which is one number, the branch above the leaf's sixteen bits, and what it holds.
#[derive(Clone, Copy)]
pub struct Container {
    pub descriptor: u32,
    pub content: Content,
}

// The number of a value's octets, or a width octet as received, 128 or more, whose low seven bits are the indication.
#[derive(Clone, Copy)]
pub enum Content {
    Value(usize),
    Indication(u8),
}
