// The entries that make an end, step it by a report or a frame and show it; the tick is in ticking.rt. An end is kept in octets
// that the caller lends, and its watch beside it: an entry unpacks the end, takes the call, and stores the end after it. Octets
// that no end and watch are packed to are 10, and nothing is touched.
ghost use Rattle.std.specs.Prelude.{◌≡◌, ◌≤◌, length};
ghost use Rattle.std.proofs.lemmas.List.Edits.{sets};
ghost use Rattle.link_end.specs.Parts.{as_end};
ghost use Rattle.octets.specs.Refusals.{as_answer};
ghost use Rattle.link_windows.specs.Ranges.{as_watch, fresh_watch};
ghost use Rattle.oam_packing.specs.Watches.{watch_shown};
ghost use Rattle.oam_packing.specs.Octets.{unpacked, watch_in};
ghost use Rattle.oam_showing.specs.Showing.{Showing};
ghost use Rattle.oam.specs.Machine.{Stepping, settings_of, fresh_for, Freshly, known_report, reported_by, reported_output, news_shown, received_by, received_output, Receiving, end_numbers, end_shown};

use link_end::{End, News, Report};
use link_peer::Settings;
use link_windows::Watch;
use oam_outcomes::{stepped_number, store_outcome};
use oam_showing::{show, show_header};
use octets::Refusal;

// Stores a fresh end and its watch, or neither where one of them is refused.
fn store_fresh(
    end: Result<End, Refusal>,
    watch: Result<Watch, Refusal>,
    state: &mut [u8],
) -> Result<(), Refusal>
    ensures { Freshly (as_end end) (as_watch watch) state.old (as_answer result) state.new }
{
    let end = end?;
    let watch = watch?;
    oam_packing::pack(&end, state);
    oam_packing::pack_watch(&watch, state);
    Ok(())
}

// Makes a fresh end and a fresh watch by their settings: 0, or 10 for settings out of range and for a state of another length.
#[tactic(auto, unfolding(crate::specs::Machine::fresh_for))]
pub fn oam_fresh(
    configuration: u8,
    size: u16,
    oui: u32,
    vendor: u32,
    source: u64,
    required: u8,
    frame_window: u64,
    frame_threshold: u64,
    seconds_window: u64,
    seconds_threshold: u64,
    state: &mut [u8],
) -> u64
    ensures { Freshly (fresh_for (settings_of configuration size oui vendor source required) state.old) (fresh_watch frame_window frame_threshold seconds_window seconds_threshold) state.old result state.new }
{
    if state.len() != oam_packing::STATE_LENGTH {
        return 10;
    }
    let settings = Settings {
        configuration,
        size,
        oui,
        vendor,
        source,
        required,
    };
    let watch = Watch::fresh(
        frame_window,
        frame_threshold,
        seconds_window,
        seconds_threshold,
    );
    match store_fresh(End::fresh(settings), watch, state) {
        Ok(()) => 0,
        Err(refusal) => u64::from(refusal.number()),
    }
}

// The report of a number, where there is one.
fn known_report(number: u8) -> Option<Report>
    ensures { result ≡ known_report number }
{
    match number {
        0 => Some(Report::LinkUp),
        1 => Some(Report::LinkDown),
        2 => Some(Report::DyingGasp(true)),
        3 => Some(Report::DyingGasp(false)),
        4 => Some(Report::CriticalEvent(true)),
        5 => Some(Report::CriticalEvent(false)),
        _ => None,
    }
}

// One report: 0 link up, 1 link down, 2 and 3 dying gasp set and cleared, 4 and 5 critical event set and cleared; any other
// number is 10, which leaves the end as it is.
pub fn oam_report(report: u8, state: &mut [u8], out: &mut [u8]) -> u64
    ensures { Stepping (reported_by report (length out.old)) (reported_output report) (unpacked state.old) state.old out.old result state.new out.new }
{
    match oam_packing::unpack(state) {
        Err(refusal) => u64::from(refusal.number()),
        Ok(mut end) => {
            let Some(known) = known_report(report) else {
                return stepped_number(link::told(&end, Err(Refusal::OutOfRange)));
            };
            let step = link::take_report(&mut end, known, out);
            store_outcome(link::told(&end, step), state)
        }
    }
}

// What is heard of an accepted frame.
fn show_news(lent: &mut [u64], shown: News) -> u64
    ensures { Showing (news_shown shown) lent.old result lent.new }
{
    match shown {
        News::Nothing => 0,
        News::Frame(header) => show_header(lent, header, 0),
        News::Events(header, number) => show_header(lent, header, number as u64),
    }
}

// One received frame. Of one that is accepted five numbers are stored in the header: source, flags, code, the event number where
// the events are new, else 0, and how many TLVs were skipped. A header shorter than that is 9, which leaves the end as it is.
pub fn oam_receive(frame: &[u8], header: &mut [u64], state: &mut [u8], out: &mut [u8]) -> u64
    ensures { Receiving (received_by frame.now (length header.old) (length out.old)) (received_output frame.now (length header.old)) (unpacked state.old) header.old state.old out.old result header.new state.new out.new }
{
    match oam_packing::unpack(state) {
        Err(refusal) => u64::from(refusal.number()),
        Ok(mut end) => {
            if header.len() < oam_showing::HEADER_NUMBERS {
                return stepped_number(link::told(&end, Err(Refusal::ShortOutput)));
            }
            match link::receive(&mut end, frame, out) {
                Err(refusal) => store_outcome(link::told(&end, Err(refusal)), state),
                Ok(step) => {
                    show_news(header, step.shown);
                    store_outcome(link::told(&end, Ok(step)), state)
                }
            }
        }
    }
}

// The numbers of a watch, behind those of its end.
#[tactic(auto, unfolding(oam_packing::specs::Watches::watch_shown))]
fn show_watch(lent: &mut [u64], watch: &Watch)
    requires { 43 ≤ length lent.old }
    ensures { lent.new ≡ sets lent.old 29 (watch_shown watch.now) }
{
    let frames = watch.frames();
    let seconds = watch.seconds();
    lent[29] = u64::from(frames.length);
    lent[30] = u64::from(frames.threshold);
    lent[31] = u64::from(seconds.length);
    lent[32] = u64::from(seconds.threshold);
    lent[33] = u64::from(frames.at);
    lent[34] = u64::from(frames.errors);
    lent[35] = frames.total;
    lent[36] = u64::from(frames.events);
    lent[37] = u64::from(seconds.at);
    lent[38] = u64::from(seconds.errors);
    lent[39] = seconds.total;
    lent[40] = u64::from(seconds.events);
    lent[41] = u64::from(watch.stamp());
    lent[42] = u64::from(watch.bad());
}

// The 27 numbers of an end, where discovery stands, the digits of its intervals, and the numbers of its watch.
fn show_end(lent: &mut [u64], end: &End, watch: &Watch) -> u64
    requires { 43 ≤ length lent.old }
    ensures { Showing (end_numbers end.now watch.now) lent.old result lent.new }
{
    let answer = show(lent, 0, &oam_numbers::numbers_of(end));
    lent[27] = u64::from(end.discovery().number());
    lent[28] = end.meter().intervals();
    show_watch(lent, watch);
    answer
}

// Shows an end and its watch: the 27 numbers of its parts in their order, then where discovery stands: 0 FAULT, 1
// ACTIVE_SEND_LOCAL, 2 PASSIVE_WAIT, 3 SEND_LOCAL_REMOTE, 4 SEND_LOCAL_REMOTE_OK, 5 SEND_ANY; then the frames of each of the
// newest eleven intervals, as digits of four bits; then the lengths and thresholds of the two windows, of each the ticks, errors,
// error total and event total, the stamp, and whether the present second has a bad frame. Fewer than 43 numbers lent is 9.
pub fn oam_show(state: &[u8], numbers: &mut [u64]) -> u64
    ensures { Showing (end_shown (unpacked state.now) (watch_in state.now) (length numbers.old)) numbers.old result numbers.new }
{
    match oam_packing::unpack(state) {
        Err(refusal) => u64::from(refusal.number()),
        Ok(end) => {
            if numbers.len() < 43 {
                return 9;
            }
            show_end(numbers, &end, &oam_packing::watch_in(state))
        }
    }
}
