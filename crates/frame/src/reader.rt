// The judge of a whole frame: answers 1 to 5 in order, then the body in octet order. No number is taken out of it.
ghost use Rattle.std.specs.Prelude.{◌≡◌, ◌≤◌, length};
ghost use Rattle.octets.specs.Layout.{shortest_frame};
ghost use Rattle.frame.specs.Frame.{header_answer, judgement_of};
ghost use Rattle.frame.specs.Judgement.{as_judgement};
ghost use Rattle.octets.specs.Refusals.{as_answer};
ghost use Rattle.frame.specs.Reader.{sixteen_bits, body_judgement};

use crate::Accepted;
use crate::parts::{body, events_body};
use octets::Refusal;

// The tests 1 to 4 in order: the first that fails.
#[tactic(auto, unfolding(crate::specs::Frame::header_answer))]
fn judge_header(frame: &[u8]) -> Result<(), Refusal>
    ensures { as_answer result ≡ header_answer frame.now }
{
    if frame.len() < octets::SHORTEST_FRAME || octets::LONGEST_FRAME < frame.len() {
        return Err(Refusal::WrongLength);
    }
    // the destination, as four octets and two: 01-80-C2-00-00-02
    if u32::from_be_bytes([frame[0], frame[1], frame[2], frame[3]])
        != (octets::DESTINATION >> 16) as u32
    {
        return Err(Refusal::WrongDestination);
    }
    if u16::from_be_bytes([frame[4], frame[5]]) != (octets::DESTINATION & 0xffff) as u16 {
        return Err(Refusal::WrongDestination);
    }
    if u16::from_be_bytes([frame[12], frame[13]]) != octets::LENGTH_TYPE {
        return Err(Refusal::WrongType);
    }
    if frame[14] != octets::SUBTYPE {
        return Err(Refusal::WrongSubtype);
    }
    Ok(())
}

// A number of skipped TLVs in sixteen bits, which is more than a frame has room for: a judgement and a header are handed on in two
// words so.
fn sixteen_bits(skipped: usize) -> u16
    ensures { result ≡ sixteen_bits skipped }
{
    skipped.min(0xffff) as u16
}

// The body by its code: 00 and 01 have TLVs, and only those can have a Local or skip any.
#[tactic(auto, unfolding(crate::specs::Reader::body_judgement, crate::specs::Reader::other_answer))]
fn judge_body(frame: &[u8]) -> Result<Accepted, Refusal>
    requires { shortest_frame ≤ length frame.now }
    ensures { as_judgement result ≡ body_judgement frame.now }
{
    let local = body(frame).len();
    match frame[17] {
        0 => frame_body::judged_information(body(frame)).map(|whole| Accepted {
            local: whole.local,
            skipped: sixteen_bits(whole.skipped),
        }),
        1 => frame_body::judged_events(events_body(frame)).map(|skipped| Accepted {
            local,
            skipped: sixteen_bits(skipped),
        }),
        2 if !frame_body::descriptors_are_whole(body(frame)) => Err(Refusal::Broken),
        3 if !frame_body::containers_are_whole(body(frame)) => Err(Refusal::Broken),
        4 if !matches!(frame[octets::BODY_START], 1 | 2) => Err(Refusal::WrongCommand),
        2..=4 | 0xfe => Ok(Accepted { local, skipped: 0 }),
        _ => Err(Refusal::WrongCode),
    }
}

// What a frame comes to: the first thing that it is refused for, `WrongLength` to `WrongCommand` of `Refusal`, or what is known of
// it.
#[tactic(auto, using(crate::proofs::Decoding::header_long, crate::proofs::Decoding::header_refused, crate::proofs::Decoding::body_judged))]
pub fn judgement_of(frame: &[u8]) -> Result<Accepted, Refusal>
    ensures { as_judgement result ≡ judgement_of frame.now }
{
    judge_header(frame)?;
    judge_body(frame)
}
