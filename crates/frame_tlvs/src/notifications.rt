// The event TLVs of an Event Notification.
ghost use Rattle.std.specs.Prelude.{◌≡◌, ◌+◌, ◌≤◌, ◌<◌, length};
ghost use Rattle.octets.specs.Octets.{total};
ghost use Rattle.frame_tlvs.specs.Walk.{OnlyBroken};
ghost use Rattle.frame_tlvs.specs.Events.{event_at, as_event_step, event_step};
ghost use Rattle.frame_tlvs.specs.Tlvs.{row, event_widths, event_length};

use crate::numbers::number;
use crate::tlvs::mark_at;
use crate::{Event, Kind, Placed};
use octets::Refusal;

// The width in octets of each field, a row for each type from 1 on: timestamp, window, threshold, errors, error
// total, event total. The reader and the writers go by it.
const WIDTHS: [[usize; 6]; 4] = [
    [2, 8, 8, 8, 8, 4],
    [2, 2, 4, 4, 8, 4],
    [2, 4, 4, 4, 8, 4],
    [2, 2, 2, 2, 4, 4],
];

// The widths of an event's fields by its type; zeros for a type that is not in the table. Each row is taken at a constant place:
// a table that is indexed by a variable would be stored on the stack at each use.
#[tactic(auto, unfolding(crate::specs::Tlvs::event_widths, crate::specs::Tlvs::row))]
pub fn event_widths(t: u8) -> [usize; 6]
    ensures { result ≡ event_widths t }
{
    match t {
        1 => WIDTHS[0],
        2 => WIDTHS[1],
        3 => WIDTHS[2],
        4 => WIDTHS[3],
        _ => [0; 6],
    }
}

// A TLV's length by its type, with the type and length octets; 0 for a type that is not in the table. The numbers are the sums
// of the table's rows, as is proved.
#[tactic(auto, unfolding(crate::specs::Tlvs::event_length, crate::specs::Tlvs::row))]
pub fn event_length(t: u8) -> usize
    ensures { result ≡ event_length t }
{
    match t {
        1 => 40,
        2 => 26,
        3 => 28,
        4 => 18,
        _ => 0,
    }
}

// The event TLV of type T at an octet. Its row of the table stands at a constant place in each copy, so that every field is one
// load at a constant distance: a row that is chosen by a variable would be stored first, and each width tested. The event total
// is taken before the others: as the last, being as wide in every row, it is taken at one place for all four types and octet by
// octet.
#[tactic(auto, unfolding(crate::specs::Tlvs::row))]
fn event_of_type<const T: usize>(body: &[u8], at: usize) -> Event
    requires { (0 < T) × (T ≤ 4) × (at + 2 + total (row T) ≤ length body.now) }
    ensures { result ≡ event_at body.now at T }
{
    let [
        timestamp,
        window,
        threshold,
        errors,
        error_total,
        event_total,
    ] = WIDTHS[T - 1];
    let window_at = at + 2 + timestamp;
    let threshold_at = window_at + window;
    let errors_at = threshold_at + threshold;
    let error_total_at = errors_at + errors;
    let event_total = number(body, error_total_at + error_total, event_total);
    Event {
        kind: T as u8,
        timestamp: number(body, at + 2, timestamp),
        window: number(body, window_at, window),
        threshold: number(body, threshold_at, threshold),
        errors: number(body, errors_at, errors),
        error_total: number(body, error_total_at, error_total),
        event_total,
    }
}

// The event TLV of a type at an octet.
fn event_at(body: &[u8], at: usize, t: u8) -> Event
    requires { (0 < t) × (t ≤ 4) × (at + 2 + total (row t) ≤ length body.now) }
    ensures { result ≡ event_at body.now at t }
{
    match t {
        1 => event_of_type::<1>(body, at),
        2 => event_of_type::<2>(body, at),
        3 => event_of_type::<3>(body, at),
        _ => event_of_type::<4>(body, at),
    }
}

// What stands at an octet of an Event Notification after its number: nothing more, an event, or `None` for an unknown TLV, which
// is to be skipped.
//
// # Errors
//
// `Refusal::Broken` of a TLV that is cut off, has a length below 2, or is an event of another length than its type's.
#[tactic(auto, unfolding(crate::specs::Events::event_step))]
pub fn event_step(body: &[u8], at: usize) -> Option<Result<Placed<Option<Event>>, Refusal>>
    ensures found { as_event_step result ≡ event_step body.now at }
    ensures refusal { OnlyBroken result }
{
    match mark_at(Kind::Events, body, at) {
        None => None,
        Some(Err(refusal)) => Some(Err(refusal)),
        Some(Ok(mark)) => Some(Ok(Placed {
            part: match mark.part {
                None => None,
                Some(t) => Some(event_at(body, at, t)),
            },
            end: mark.end,
        })),
    }
}
