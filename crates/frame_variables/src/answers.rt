// What answers a descriptor: where its value is found, how many octets the container has, and what of the room it leaves.
ghost use Rattle.std.specs.Prelude.{◌≡◌};
ghost use Rattle.frame_variables.specs.Answers.{room_within, formed_answers, width_octet, place_of, found, some_octets, fitted, answer_octets, left_after, measured_answers};

use crate::attributes::formed_attributes;
use crate::descriptors::plain_descriptors;
use crate::{MOST_ASKED, MOST_ATTRIBUTES, NOT_SUPPORTED, Place};
use octets::{BODY_START, LONGEST_FRAME};

// The octets of the FCS, which a maximum size counts.
const FCS: usize = 4;

// The octets of a container without its value: a descriptor's three and the width octet.
const DESCRIBED: usize = 4;

// Whether what is asked and what is held are in range.
#[tactic(auto, unfolding(crate::specs::Answers::formed_answers))]
pub fn formed_answers(attributes: &[u32], values: &[u8], descriptors: &[u32]) -> bool
    ensures { result ≡ formed_answers attributes.now values.now descriptors.now }
{
    plain_descriptors(MOST_ASKED, descriptors) && formed_attributes(attributes, values)
}

// The room for containers in a frame within a maximum size, which counts header and FCS.
pub fn room_within(size: usize) -> usize
    ensures { result ≡ room_within size }
{
    size.min(LONGEST_FRAME + FCS)
        .saturating_sub(BODY_START + FCS)
}

// The width octet of an answer: 128 is written 00, and a width of 0 says that no value is held.
pub fn width_octet(width: usize) -> u8
    ensures { result ≡ width_octet width }
{
    if width == 0 {
        NOT_SUPPORTED
    } else {
        (width % 128) as u8
    }
}

// Where the value of a descriptor's attribute stands; if none is held, the octet of the values at which it would stand. No value
// has a width of 0.
pub fn place_of(attributes: &[u32], descriptor: u32) -> Result<Place, usize>
    ensures { result ≡ found (place_of attributes.now descriptor) }
{
    let most = attributes.len().min(2 * MOST_ATTRIBUTES);
    let (pairs, _) = attributes[..most].as_chunks::<2>();
    let mut at = 0;
    for &[held, width] in pairs {
        let width = width as usize;
        if held == descriptor {
            return (width != 0).then_some(Place { at, width }).ok_or(at);
        }
        at += width;
    }
    Err(at)
}

// The octets of an answer by its width, if they fit into what is left of the room.
pub fn fitted(left: usize, width: usize) -> Option<usize>
    ensures { result ≡ some_octets (fitted left width) }
{
    let octets = width.checked_add(DESCRIBED)?;
    (octets <= left).then_some(octets)
}

// The octets of the answer to a descriptor, if they fit. Nothing is searched for where no container fits.
#[tactic(auto, unfolding(crate::specs::Answers::answer_octets))]
fn answer_octets(left: usize, attributes: &[u32], descriptor: u32) -> Option<usize>
    ensures { result ≡ some_octets (answer_octets left attributes.now descriptor) }
{
    if left < DESCRIBED {
        return None;
    }
    fitted(
        left,
        place_of(attributes, descriptor).map_or(0, |place| place.width),
    )
}

// What an answer's octets leave of the room: nothing where it did not fit, since nothing fits into nothing.
pub fn left_after(left: usize, octets: usize) -> usize
    ensures { result ≡ left_after left octets }
{
    let rest = left.saturating_sub(octets);
    if octets == 0 { 0 } else { rest }
}

// The octets of the answers to descriptors, as many as fit: from the first that does not, the rest is left off.
pub fn measured_answers(room: usize, attributes: &[u32], descriptors: &[u32]) -> usize
    ensures { result ≡ measured_answers room attributes.now descriptors.now }
{
    let mut left = room;
    let mut sum = 0;
    for descriptor in descriptors {
        let Some(octets) = answer_octets(left, attributes, *descriptor) else {
            break;
        };
        sum += octets;
        left = left_after(left, octets);
    }
    sum
}
