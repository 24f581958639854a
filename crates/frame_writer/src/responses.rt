// The Variable Response frame, of containers as they stand in a frame, or of the answers to descriptors.
ghost use Rattle.std.specs.Prelude.{◌≡◌, true, cond, [], ◌∷◌, ◌++◌, ◌+◌, ◌≤◌, length};
ghost use Rattle.std.proofs.lemmas.List.Edits.{sets};
ghost use Rattle.octets.specs.Octets.{oct};
ghost use Rattle.octets.specs.Layout.{body_start};
ghost use Rattle.frame.specs.Frame.{response};
ghost use Rattle.frame_variables.specs.Attributes.{attributes_from, formed_attributes};
ghost use Rattle.frame_variables.specs.Answers.{containers_length, answers, answers_within, formed_answers, place_of, answer_octets, measured_answers};
ghost use Rattle.frame_writer.specs.Encode.{container_octets, joined};
ghost use Rattle.frame_writer.specs.Plain.{most_containers_octets, sized, some_octets};
ghost use Rattle.frame_writer.specs.Writing.{WritingFormed, as_written, message_of};
ghost use Rattle.frame_writer.specs.Responses.{containers_of, all_containers, formed_containers, needed_within, needed_octets};

use crate::padding::{at_least_shortest, finish};
use crate::sender::Sender;
use crate::storing::put_number;
use frame_variables::{Place, formed_answers, measured_answers, room_within};
use octets::{BODY_START, LONGEST_FRAME, Refusal, put_octets};

// The octets that the longest frame has room for after its header.
const MOST_CONTAINERS_OCTETS: usize = LONGEST_FRAME - BODY_START;

// The octets of the containers that stand from the first octet on, up to an end or to one that is broken. Each step tells where
// the next one stands, so there is nothing to count by.
fn containers_length(containers: &[u8]) -> usize
    ensures { result ≡ containers_length (containers_of containers.now) }
{
    let mut at = 0;
    while let Some(step) = frame_body::container_step(containers, at) {
        let Ok(container) = step else {
            return at;
        };
        at = container.end;
    }
    at
}

// Whether octets are containers to the last of them, and no more than a frame has room for.
fn formed_containers(containers: &[u8]) -> bool
    ensures { result ≡ formed_containers containers.now }
{
    containers.len() <= MOST_CONTAINERS_OCTETS && containers_length(containers) == containers.len()
}

// The octets of their frame, if they are such.
fn response_octets(containers: &[u8]) -> Option<usize>
    ensures { result ≡ some_octets (cond (all_containers containers.now) (sized (response (containers_of containers.now))) 0) }
{
    if !formed_containers(containers) {
        return None;
    }
    Some(at_least_shortest(BODY_START + containers.len()))
}

// Writes a Variable Response frame of containers as they stand in a frame.
pub fn write_response(sender: Sender, containers: &[u8], out: &mut [u8]) -> Result<usize, Refusal>
    ensures { WritingFormed (all_containers containers.now) (message_of sender.source sender.flags (response (containers_of containers.now))) out.old (as_written result) out.new }
{
    sender.permits(response_octets(containers), out.len())?;
    sender.put(3, out);
    put_octets(out, BODY_START, containers);
    Ok(finish(out, BODY_START + containers.len()))
}

// The octets that an output must have for the answers' frame. One that has those of the longest frame that there is room for
// needs no more, and nothing is searched for.
fn needed_within(lent: usize, room: usize, attributes: &[u32], descriptors: &[u32]) -> usize
    requires { room ≤ most_containers_octets }
    ensures { result ≡ needed_within lent room attributes.now descriptors.now }
{
    let all = at_least_shortest(BODY_START + room);
    if all <= lent {
        return all;
    }
    at_least_shortest(BODY_START + measured_answers(room, attributes, descriptors))
}

// The same by a maximum size, if what is asked and held is in range.
pub fn needed_octets(
    lent: usize,
    size: usize,
    attributes: &[u32],
    values: &[u8],
    descriptors: &[u32],
) -> Option<usize>
    ensures { result ≡ some_octets (needed_octets lent size attributes.now values.now descriptors.now) }
{
    if !formed_answers(attributes, values, descriptors) {
        return None;
    }
    let room = room_within(size);
    Some(needed_within(lent, room, attributes, descriptors))
}

// Stores a container from octet at: its descriptor, its width octet and its value.
fn put_container(out: &mut [u8], at: usize, descriptor: u32, octet: u8, value: &[u8])
    requires { at + (4 + length value.now) ≤ length out.old }
    ensures { out.new ≡ sets out.old at (oct 3 descriptor ++ (oct 1 octet ++ value.now)) }
{
    put_number(out, at, 3, u64::from(descriptor));
    put_number(out, at + 3, 1, u64::from(octet));
    put_octets(out, at + 4, value);
}

// Where the value of a descriptor's attribute stands, or would stand: there with no octets where none is held.
fn place_of(attributes: &[u32], descriptor: u32) -> Place
    ensures { result ≡ place_of attributes.now descriptor }
{
    match frame_variables::place_of(attributes, descriptor) {
        Ok(place) => place,
        Err(at) => Place { at, width: 0 },
    }
}

// Stores the answer to a descriptor from octet at where it fits into what is left of the room, and gives its octets if it does.
fn put_answer(
    out: &mut [u8],
    at: usize,
    left: usize,
    attributes: &[u32],
    values: &[u8],
    descriptor: u32,
) -> Option<usize>
    requires { (formed_attributes attributes.now values.now ≡ true) × (at + answer_octets left attributes.now descriptor ≤ length out.old) }
    ensures octets { result ≡ some_octets (answer_octets left attributes.now descriptor) }
    ensures output { out.new ≡ sets out.old at (joined container_octets (answers left (attributes_from attributes.now values.now) (descriptor ∷ []))) }
{
    if left < 4 {
        return None;
    }
    let place = place_of(attributes, descriptor);
    let octets = frame_variables::fitted(left, place.width)?;
    let value = &values[place.at..place.at + place.width];
    let octet = frame_variables::width_octet(place.width);
    put_container(out, at, descriptor, octet, value);
    Some(octets)
}

// Stores the answers to descriptors one after another from the body's start, as many as fit, and gives the octet after them.
fn put_answers(
    out: &mut [u8],
    room: usize,
    attributes: &[u32],
    values: &[u8],
    descriptors: &[u32],
) -> usize
    requires { (formed_attributes attributes.now values.now ≡ true) × (body_start + measured_answers room attributes.now descriptors.now ≤ length out.old) }
    ensures end { result ≡ body_start + measured_answers room attributes.now descriptors.now }
    ensures output { out.new ≡ sets out.old body_start (joined container_octets (answers room (attributes_from attributes.now values.now) descriptors.now)) }
{
    let mut position = BODY_START;
    let mut left = room;
    for &descriptor in descriptors {
        let Some(octets) = put_answer(out, position, left, attributes, values, descriptor) else {
            break;
        };
        position += octets;
        left = frame_variables::left_after(left, octets);
    }
    position
}

// Writes a Variable Response frame: the answers to descriptors, as many as fit into a maximum size, which counts header and FCS.
// An attribute is two numbers, its descriptor and its width in octets; the values stand one after another.
pub fn write_answers(
    sender: Sender,
    size: usize,
    attributes: &[u32],
    values: &[u8],
    descriptors: &[u32],
    out: &mut [u8],
) -> Result<usize, Refusal>
    ensures { WritingFormed (formed_answers attributes.now values.now descriptors.now) (message_of sender.source sender.flags (response (answers_within size attributes.now values.now descriptors.now))) out.old (as_written result) out.new }
{
    // nothing is searched for where the header alone is refused
    if !sender.is_plain() {
        return Err(Refusal::OutOfRange);
    }
    let needed = needed_octets(out.len(), size, attributes, values, descriptors);
    sender.permits(needed, out.len())?;
    sender.put(3, out);
    let end = put_answers(out, room_within(size), attributes, values, descriptors);
    Ok(finish(out, end))
}
