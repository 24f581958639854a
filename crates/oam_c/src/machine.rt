// The entries that make an end, step it by a report or a frame and show it; the tick is in ticking.rt. An end is kept in octets
// that the caller lends, and its watch beside it: an entry unpacks the end, takes the call, and stores the end after it. Octets
// that no end and watch are packed to are 10, and nothing is touched.
ghost use Rattle.std.specs.Prelude.{length};
ghost use Rattle.link_windows.specs.Ranges.{fresh_watch};
ghost use Rattle.oam_packing.specs.Octets.{unpacked, watch_in};
ghost use Rattle.oam_showing.specs.Showing.{Showing};
ghost use Rattle.oam.specs.Machine.{Stepping, settings_of, fresh_for, Freshly, reported_by, reported_output, received_by, received_output, Receiving, end_shown};

// Makes a fresh end and a fresh watch by their settings: 0, or 10 for settings out of range and for a state of another length.
#[unsafe(no_mangle)]
pub extern "C" fn oam_fresh(
    configuration: u8,
    size: u16,
    oui: u32,
    vendor: u32,
    source: u64,
    required: u8,
    frame_window: u64,
    frame_threshold: u64,
    seconds_window: u64,
    seconds_threshold: u64,
    state: &mut [u8],
) -> u64
    ensures { Freshly (fresh_for (settings_of configuration size oui vendor source required) state.old) (fresh_watch frame_window frame_threshold seconds_window seconds_threshold) state.old result state.new }
{
    oam::oam_fresh(
        configuration,
        size,
        oui,
        vendor,
        source,
        required,
        frame_window,
        frame_threshold,
        seconds_window,
        seconds_threshold,
        state,
    )
}

// One report: 0 link up, 1 link down, 2 and 3 dying gasp set and cleared, 4 and 5 critical event set and cleared; any other
// number is 10, which leaves the end as it is.
#[unsafe(no_mangle)]
pub extern "C" fn oam_report(report: u8, state: &mut [u8], out: &mut [u8]) -> u64
    ensures { Stepping (reported_by report (length out.old)) (reported_output report) (unpacked state.old) state.old out.old result state.new out.new }
{
    oam::oam_report(report, state, out)
}

// One received frame. Of one that is accepted five numbers are stored in the header: source, flags, code, the event number where
// the events are new, else 0, and how many TLVs were skipped. A header shorter than that is 9, which leaves the end as it is.
#[unsafe(no_mangle)]
pub extern "C" fn oam_receive(
    frame: &[u8],
    header: &mut [u64],
    state: &mut [u8],
    out: &mut [u8],
) -> u64
    ensures { Receiving (received_by frame.now (length header.old) (length out.old)) (received_output frame.now (length header.old)) (unpacked state.old) header.old state.old out.old result header.new state.new out.new }
{
    oam::oam_receive(frame, header, state, out)
}

// Shows an end and its watch: the 27 numbers of its parts in their order, then where discovery stands: 0 FAULT, 1
// ACTIVE_SEND_LOCAL, 2 PASSIVE_WAIT, 3 SEND_LOCAL_REMOTE, 4 SEND_LOCAL_REMOTE_OK, 5 SEND_ANY; then the frames of each of the
// newest eleven intervals, as digits of four bits; then the lengths and thresholds of the two windows, of each the ticks, errors,
// error total and event total, the stamp, and whether the present second has a bad frame. Fewer than 43 numbers lent is 9.
#[unsafe(no_mangle)]
pub extern "C" fn oam_show(state: &[u8], numbers: &mut [u64]) -> u64
    ensures { Showing (end_shown (unpacked state.now) (watch_in state.now) (length numbers.old)) numbers.old result numbers.new }
{
    oam::oam_show(state, numbers)
}
