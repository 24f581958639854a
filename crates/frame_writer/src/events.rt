// The Event Notification frame. An event is lent as seven numbers: its type and its six values.
ghost use Rattle.std.specs.Prelude.{◌≡◌, true, ◌+◌, ◌≤◌, length, get_or};
ghost use Rattle.std.proofs.lemmas.List.Edits.{sets};
ghost use Rattle.octets.specs.Layout.{events_start};
ghost use Rattle.octets.specs.Tests.{between};
ghost use Rattle.frame_tlvs.specs.Tlvs.{event_length};
ghost use Rattle.frame.specs.Frame.{notification};
ghost use Rattle.frame_writer.specs.Encode.{event_octets, joined};
ghost use Rattle.frame_writer.specs.Plain.{most_events, plain_events, events_length, sized, some_octets};
ghost use Rattle.frame_writer.specs.Writing.{Writing, as_written, message_of, event_from, plain_seven, events_of, measured_events};

use crate::MOST_EVENTS;
use crate::padding::{at_least_shortest, finish};
use crate::sender::Sender;
use crate::storing::{put_number, put_tlv};
use octets::{BODY_START, EVENTS_START, Refusal, all_fit};

// Whether a number is an event's type.
fn is_type(number: u64) -> bool
    ensures { result ≡ between 1 4 number }
{
    (1..=4).contains(&number)
}

// Whether a notification may have so many events.
fn is_count(count: usize) -> bool
    ensures { result ≡ between 1 most_events count }
{
    (1..=MOST_EVENTS).contains(&count)
}

// Whether some numbers are an event in plain form: a type from 1 to 4, and six values, each within its width.
pub fn plain_seven(event: &[u64]) -> bool
    ensures { result ≡ plain_seven event.now }
{
    if event.len() != 7 {
        return false;
    }
    is_type(event[0]) && all_fit(&frame_tlvs::event_widths(event[0] as u8), &event[1..])
}

// The octets of all the events, if the numbers are 1 to 16 events in plain form.
fn measured_events(events: &[u64]) -> Option<usize>
    ensures { result ≡ some_octets (measured_events (events_of events.now)) }
{
    let (sevens, rest) = events.as_chunks::<7>();
    if !rest.is_empty() {
        return None;
    }
    if !is_count(sevens.len()) {
        return None;
    }
    let mut octets = 0;
    for event in sevens {
        if !plain_seven(event) {
            return None;
        }
        octets += frame_tlvs::event_length(event[0] as u8);
    }
    Some(octets)
}

// The octets of a notification's frame, if it has a plain form.
pub fn notification_octets(number: u16, events: &[u64]) -> Option<usize>
    ensures { result ≡ some_octets (sized (notification number (events_of events.now))) }
{
    let octets = measured_events(events)?;
    Some(at_least_shortest(EVENTS_START + octets))
}

// Stores an event's TLV from octet at, and answers its length.
fn put_event(out: &mut [u8], at: usize, event: &[u64; 7]) -> usize
    requires { (plain_seven event.now ≡ true) × (at + event_length (get_or event.now 0 0) ≤ length out.old) }
    ensures { (result ≡ event_length (get_or event.now 0 0)) × (out.new ≡ sets out.old at (event_octets (event_from event.now))) }
{
    let kind = event[0] as u8;
    let octets = frame_tlvs::event_length(kind);
    let widths = frame_tlvs::event_widths(kind);
    put_tlv(out, at, kind, octets, &widths, &event[1..]);
    octets
}

// Stores the events' TLVs one after another from where the first stands, and gives the octet after them.
fn put_events(out: &mut [u8], events: &[u64]) -> usize
    requires { (plain_events (events_of events.now) ≡ true) × (events_start + events_length (events_of events.now) ≤ length out.old) }
    ensures { (result ≡ events_start + events_length (events_of events.now)) × (out.new ≡ sets out.old events_start (joined event_octets (events_of events.now))) }
{
    let (sevens, _) = events.as_chunks::<7>();
    let mut position = EVENTS_START;
    for event in sevens {
        position += put_event(out, position, event);
    }
    position
}

// Writes an Event Notification frame with its number and 1 to 16 events, each seven numbers: its type and its six values.
pub fn write_notification(
    sender: Sender,
    number: u16,
    events: &[u64],
    out: &mut [u8],
) -> Result<usize, Refusal>
    ensures { Writing (message_of sender.source sender.flags (notification number (events_of events.now))) out.old (as_written result) out.new }
{
    sender.permits(notification_octets(number, events), out.len())?;
    sender.put(1, out);
    put_number(out, BODY_START, 2, u64::from(number));
    let end = put_events(out, events);
    Ok(finish(out, end))
}
