// The entry of the tick, with its count of bad frames: the end's tick and the watch's count, and the events that arise.
ghost use Rattle.std.specs.Prelude.{◌≡◌, ◌∷◌, ◌++◌, ◌+◌, ◌≤◌, length, Ok};
ghost use Rattle.std.proofs.lemmas.List.Edits.{sets};
ghost use Rattle.frame_writer.specs.Encode.{event_values};
ghost use Rattle.oam_packing.specs.Octets.{unpacked, watch_in};
ghost use Rattle.link_counting.specs.Counting.{told_tick};
ghost use Rattle.oam.specs.Ticking.{arisen_numbers, arisen_count, counted_numbers, arisen_room, ticked_by, ticked_output, ticked_number, ticked_state, Ticking};

use frame_tlvs::Event;
use link_counting::Ticked;
use link_end::End;
use link_windows::{Arisen, Watch};
use oam_outcomes::{stepped_number, store_outcome};
use octets::Refusal;

// The numbers of an event, and of the most events that arise at one tick.
const EVENT_NUMBERS: usize = 7;

const ARISEN_NUMBERS: usize = 2 * EVENT_NUMBERS;

// Where an outcome says how many arose: bits 50 and 51.
const ARISEN: u64 = 0x4000000000000;

fn store_event(events: &mut [u64], at: usize, event: Event)
    requires { at + 7 ≤ length events.old }
    ensures { events.new ≡ sets events.old at (event.kind ∷ event_values event) }
{
    events[at] = u64::from(event.kind);
    events[at + 1] = event.timestamp;
    events[at + 2] = event.window;
    events[at + 3] = event.threshold;
    events[at + 4] = event.errors;
    events[at + 5] = event.error_total;
    events[at + 6] = event.event_total;
}

fn store_arisen(events: &mut [u64], at: usize, arisen: Option<Event>)
    requires { at + 7 ≤ length events.old }
    ensures { events.new ≡ sets events.old at (arisen_numbers arisen) }
{
    if let Some(event) = arisen {
        store_event(events, at, event);
    }
}

fn arisen_count(arisen: Option<Event>) -> usize
    ensures { result ≡ arisen_count arisen }
{
    usize::from(arisen.is_some())
}

// Stores what arose, errored frames first, and gives the number of events.
fn store_counted(arisen: Arisen, events: &mut [u64]) -> u64
    requires { arisen_room ≤ length events.old }
    ensures { (result ≡ arisen_count arisen.frames + arisen_count arisen.seconds) × (events.new ≡ sets events.old 0 (arisen_numbers arisen.frames ++ arisen_numbers arisen.seconds)) }
{
    let first = arisen_count(arisen.frames);
    store_arisen(events, 0, arisen.frames);
    store_arisen(events, first * EVENT_NUMBERS, arisen.seconds);
    (first + arisen_count(arisen.seconds)) as u64
}

// How a tick ends that is not refused: what arose is stored, and so are the end and the watch after it.
fn store_tick(end: &End, watch: &Watch, ticked: Ticked, events: &mut [u64], state: &mut [u8]) -> u64
    requires { arisen_room ≤ length events.old }
    ensures { (result ≡ ticked_number (told_tick end.now watch.now (Ok ticked))) × (events.new ≡ sets events.old 0 (counted_numbers (told_tick end.now watch.now (Ok ticked)).counted)) × (state.new ≡ ticked_state (told_tick end.now watch.now (Ok ticked)) state.old) }
{
    let arisen = store_counted(ticked.arisen, events);
    let number = store_outcome(link::told(end, Ok(ticked.step)), state);
    oam_packing::pack_watch(watch, state);
    number + arisen * ARISEN
}

// One tick of 100 ms with the bad frames counted since the last one. The events that arise are stored from the start of a slice
// of fourteen numbers or more, seven an event; fewer is 9, which leaves the end as it is and takes no count.
pub fn oam_tick(bad_frames: u64, events: &mut [u64], state: &mut [u8], out: &mut [u8]) -> u64
    ensures { Ticking (ticked_by bad_frames (length events.old) (length out.old) (watch_in state.old)) (ticked_output (length events.old)) (unpacked state.old) events.old state.old out.old result events.new state.new out.new }
{
    match oam_packing::unpack(state) {
        Err(refusal) => u64::from(refusal.number()),
        Ok(mut end) => {
            if events.len() < ARISEN_NUMBERS {
                return stepped_number(link::told(&end, Err(Refusal::ShortOutput)));
            }
            let mut watch = oam_packing::watch_in(state);
            match link_counting::counted_tick(&mut end, &mut watch, bad_frames, out) {
                Err(refusal) => stepped_number(link::told(&end, Err(refusal))),
                Ok(ticked) => store_tick(&end, &watch, ticked, events, state),
            }
        }
    }
}
