// The Local and Remote TLVs of an Information body.
ghost use Rattle.std.specs.Prelude.{◌≡◌, ◌+◌, ◌≤◌, length};
ghost use Rattle.frame_tlvs.specs.Walk.{OnlyBroken};
ghost use Rattle.frame_body.specs.Information.{information_at, as_information_step, information_step};
ghost use Rattle.frame_body.specs.Judging.{local_at, as_judged, judged_information};

use crate::{Information, InformationPart, Whole};
use frame_tlvs::{Kind, Placed, TlvMarks};
use octets::Refusal;

// The fields of the Information TLV at an octet.
#[tactic(auto, unfolding(crate::specs::Information::information_at))]
fn information_at(body: &[u8], at: usize) -> Information
    requires { at + 16 ≤ length body.now }
    ensures { result ≡ information_at body.now at }
{
    Information {
        version: body[at + 2],
        revision: u16::from_be_bytes([body[at + 3], body[at + 4]]),
        state: body[at + 5],
        configuration: body[at + 6],
        oampdu: u16::from_be_bytes([body[at + 7], body[at + 8]]),
        oui: u32::from_be_bytes([0, body[at + 9], body[at + 10], body[at + 11]]),
        vendor: u32::from_be_bytes([body[at + 12], body[at + 13], body[at + 14], body[at + 15]]),
    }
}

// What stands at an octet of an Information body: nothing more, a Local or Remote, or `None` for an unknown TLV, which is to be
// skipped.
//
// # Errors
//
// `Refusal::Broken` of a TLV that is cut off, has a length below 2, or is a Local or Remote of another length than 16.
#[tactic(auto, unfolding(crate::specs::Information::information_step))]
pub fn information_step(
    body: &[u8],
    at: usize,
) -> Option<Result<Placed<Option<InformationPart>>, Refusal>>
    ensures found { as_information_step result ≡ information_step body.now at }
    ensures refusal { OnlyBroken result }
{
    match frame_tlvs::mark_at(Kind::Information, body, at) {
        None => None,
        Some(Err(refusal)) => Some(Err(refusal)),
        Some(Ok(mark)) => Some(Ok(Placed {
            part: match mark.part {
                None => None,
                Some(1) => Some(InformationPart::Local(information_at(body, at))),
                Some(_) => Some(InformationPart::Remote(information_at(body, at))),
            },
            end: mark.end,
        })),
    }
}

// The Local TLV at an octet where one stands; its type is not looked at. Nothing where sixteen octets would run past the end.
#[tactic(auto, unfolding(crate::specs::Judging::local_at))]
pub fn local_at(body: &[u8], at: usize) -> Option<Information>
    ensures { result ≡ local_at body.now at }
{
    if body.len() < at || body.len() - at < 16 {
        return None;
    }
    Some(information_at(body, at))
}

// What an Information body comes to. Only types and lengths are looked at: who needs a value takes it from where it stands.
//
// # Errors
//
// `Refusal::Broken` where a TLV is broken, `Refusal::SecondTlv` at a second Local or a second Remote: the first that is met.
pub fn judged_information(body: &[u8]) -> Result<Whole, Refusal>
    ensures { as_judged result ≡ judged_information body.now }
{
    let mut local: usize = body.len();
    let mut remote = false;
    let mut skipped: usize = 0;
    for mark in TlvMarks::new(Kind::Information, body) {
        match mark? {
            (_, None) => skipped += 1,
            (at, Some(1)) => {
                if local < body.len() {
                    return Err(Refusal::SecondTlv);
                }
                local = at;
            }
            (_, Some(_)) => {
                if remote {
                    return Err(Refusal::SecondTlv);
                }
                remote = true;
            }
        }
    }
    Ok(Whole { local, skipped })
}
