// The descriptors of a Variable Request and the containers of a Variable Response.
ghost use Rattle.std.specs.Prelude.{◌≡◌, ◌+◌, ◌<◌, ◌≤◌, ◌||◌, Some, length, get_or, leb, eqb};
ghost use Rattle.octets.specs.Octets.{num};
ghost use Rattle.frame_tlvs.specs.Walk.{OnlyBroken};
ghost use Rattle.frame_body.specs.Variables.{Has, as_descriptor_step, descriptor_step, width_of, value_octets, as_container_step, container_from, container_step, container_value};

use crate::{Container, Content};
use frame_tlvs::Placed;
use octets::Refusal;

// Whether a list of descriptors or containers ends at an octet: with the body, or with branch 0.
fn ends_at(body: &[u8], at: usize) -> bool
    ensures { result ≡ (leb (length body.now) at || eqb (get_or body.now at 0) 0) }
{
    body.len() <= at || body[at] == 0
}

// The descriptor that stands whole at an octet.
#[inline(always)]
fn descriptor_at(body: &[u8], at: usize) -> Placed<u32>
    requires { at + 3 ≤ length body.now }
    ensures { (result.part ≡ num 3 body.now at) × (result.end ≡ at + 3) }
{
    Placed {
        part: u32::from_be_bytes([0, body[at], body[at + 1], body[at + 2]]),
        end: at + 3,
    }
}

// What stands at an octet of a list of descriptors: nothing more, or a descriptor, which is one number, the branch above the
// leaf's sixteen bits.
//
// # Errors
//
// `Refusal::Broken` of a descriptor that the body's end cuts off.
#[tactic(auto, unfolding(crate::specs::Variables::descriptor_step))]
#[inline]
pub fn descriptor_step(body: &[u8], at: usize) -> Option<Result<Placed<u32>, Refusal>>
    ensures found { as_descriptor_step result ≡ descriptor_step body.now at }
    ensures refusal { OnlyBroken result }
{
    if ends_at(body, at) {
        return None;
    }
    if body.len() - at < 3 {
        return Some(Err(Refusal::Broken));
    }
    Some(Ok(descriptor_at(body, at)))
}

// The octets of a value by its width octet.
fn width_of(octet: u8) -> usize
    ensures { result ≡ width_of octet }
{
    if octet == 0 { 128 } else { octet as usize }
}

// The octets that follow a width octet.
pub(crate) fn value_octets(octet: u8) -> usize
    ensures { result ≡ value_octets octet }
{
    if 128 <= octet { 0 } else { width_of(octet) }
}

// The container whose descriptor was found: its width octet stands after it, then its value.
#[inline(always)]
fn container_from(body: &[u8], descriptor: Placed<u32>) -> Result<Placed<Container>, Refusal>
    requires { descriptor.end < length body.now }
    ensures found { as_container_step (Some result) ≡ container_from body.now (Has descriptor.part descriptor.end) }
    ensures refusal { OnlyBroken (Some result) }
{
    let from = descriptor.end;
    let octet = body[from];
    // An indication is a branch of its own, and not a value of no octets: a processor guesses a branch, and reads on with the next
    // container before this octet has come.
    if 128 <= octet {
        return Ok(Placed {
            part: Container {
                descriptor: descriptor.part,
                content: Content::Indication(octet),
            },
            end: from + 1,
        });
    }
    let width = width_of(octet);
    if body.len() - (from + 1) < width {
        return Err(Refusal::Broken);
    }
    Ok(Placed {
        part: Container {
            descriptor: descriptor.part,
            content: Content::Value(width),
        },
        end: from + 1 + width,
    })
}

// What stands at an octet of a list of containers: nothing more, or a container. A descriptor and a width octet are four octets, for
// which the body's end is tested once.
//
// # Errors
//
// `Refusal::Broken` of a container that the body's end cuts off.
#[tactic(auto, unfolding(crate::specs::Variables::container_step, crate::specs::Variables::descriptor_step))]
#[inline]
pub fn container_step(body: &[u8], at: usize) -> Option<Result<Placed<Container>, Refusal>>
    ensures found { as_container_step result ≡ container_step body.now at }
    ensures refusal { OnlyBroken result }
{
    if ends_at(body, at) {
        return None;
    }
    if body.len() - at < 4 {
        return Some(Err(Refusal::Broken));
    }
    Some(container_from(body, descriptor_at(body, at)))
}

// The value of the container at an octet; empty where no value stands.
#[tactic(auto, unfolding(crate::specs::Variables::container_value))]
pub fn container_value(body: &[u8], at: usize) -> &[u8]
    ensures { result.now ≡ container_value body.now at }
{
    let Some(Ok(container)) = container_step(body, at) else {
        return &[];
    };
    let Content::Value(width) = container.part.content else {
        return &[];
    };
    &body[container.end - width..container.end]
}
