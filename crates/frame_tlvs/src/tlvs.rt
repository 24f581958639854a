// The TLV that stands at an octet of a body, and whether that kind of body knows it.
//
// A body's own types are looked at first, each with its length: of such a TLV only its length octet and its end are tested.
ghost use Rattle.std.specs.Prelude.{◌≡◌, ◌≤◌, ◌<◌, length};
ghost use Rattle.frame_tlvs.specs.Walk.{OnlyBroken};
ghost use Rattle.frame_tlvs.specs.Tlvs.{tlv_at, as_tlv, unknown_mark, known_mark, mark_at, as_mark};
ghost use Rattle.frame_tlvs.specs.declared.Kind.TheVariants.{Information, Events};

use crate::notifications::event_length;
use crate::{Kind, Placed};
use octets::Refusal;

// A TLV of any type, with the octet after it. Its length counts its type and length octets.
#[derive(Clone, Copy)]
pub struct Tlv {
    pub kind: u8,
    pub length: usize,
    pub end: usize,
}

// The TLV at an octet; nothing where the walk ends.
#[tactic(auto, unfolding(crate::specs::Tlvs::tlv_at))]
fn tlv_at(body: &[u8], at: usize) -> Option<Result<Tlv, Refusal>>
    ensures found { as_tlv result ≡ tlv_at body.now at }
    ensures refusal { OnlyBroken result }
{
    if body.len() <= at {
        return None;
    }
    let kind = body[at];
    if kind == 0 {
        return None;
    }
    if body.len() - at < 2 {
        return Some(Err(Refusal::Broken));
    }
    let length = body[at + 1] as usize;
    if length < 2 {
        return Some(Err(Refusal::Broken));
    }
    if body.len() - at < length {
        return Some(Err(Refusal::Broken));
    }
    Some(Ok(Tlv {
        kind,
        length,
        end: at + length,
    }))
}

// The mark of a TLV whose type is not known.
fn unknown_mark(body: &[u8], at: usize) -> Option<Result<Placed<Option<u8>>, Refusal>>
    ensures found { as_mark result ≡ unknown_mark (tlv_at body.now at) }
    ensures refusal { OnlyBroken result }
{
    tlv_at(body, at).map(|found| {
        found.map(|tlv| Placed {
            part: None,
            end: tlv.end,
        })
    })
}

// The mark of a TLV whose type is known to have some length.
fn known_mark(body: &[u8], at: usize, expected: usize) -> Result<Placed<Option<u8>>, Refusal>
    requires { (at < length body.now) × (2 ≤ expected) × (expected ≤ 40) }
    ensures found { as_mark (Some result) ≡ known_mark body.now at expected }
    ensures refusal { OnlyBroken (Some result) }
{
    let end = at + expected;
    if body.len() < end || body[at + 1] as usize != expected {
        return Err(Refusal::Broken);
    }
    Ok(Placed {
        part: Some(body[at]),
        end,
    })
}

fn information_mark(body: &[u8], at: usize) -> Option<Result<Placed<Option<u8>>, Refusal>>
    requires { at < length body.now }
    ensures found { as_mark result ≡ mark_at Information body.now at }
    ensures refusal { OnlyBroken result }
{
    match body[at] {
        1 | 2 => Some(known_mark(body, at, 16)),
        _ => unknown_mark(body, at),
    }
}

// An arm for each type, so that its length is a constant there.
fn event_mark(body: &[u8], at: usize) -> Option<Result<Placed<Option<u8>>, Refusal>>
    requires { at < length body.now }
    ensures found { as_mark result ≡ mark_at Events body.now at }
    ensures refusal { OnlyBroken result }
{
    match body[at] {
        1 => Some(known_mark(body, at, event_length(1))),
        2 => Some(known_mark(body, at, event_length(2))),
        3 => Some(known_mark(body, at, event_length(3))),
        4 => Some(known_mark(body, at, event_length(4))),
        _ => unknown_mark(body, at),
    }
}

// What stands at an octet of a body of TLVs: a TLV's type, or `None` for one that this kind of body does not know; nothing where
// the walk over them ends.
//
// # Errors
//
// `Refusal::Broken` of a TLV that is cut off, has a length below 2, or is known and has another length than its type's.
pub fn mark_at(kind: Kind, body: &[u8], at: usize) -> Option<Result<Placed<Option<u8>>, Refusal>>
    ensures found { as_mark result ≡ mark_at kind body.now at }
    ensures refusal { OnlyBroken result }
{
    if body.len() <= at {
        return None;
    }
    match kind {
        Kind::Information => information_mark(body, at),
        Kind::Events => event_mark(body, at),
    }
}
