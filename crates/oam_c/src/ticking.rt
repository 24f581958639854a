// The entry of the tick, with its count of bad frames: the end's tick and the watch's count, and the events that arise.
ghost use Rattle.std.specs.Prelude.{length};
ghost use Rattle.oam_packing.specs.Octets.{unpacked, watch_in};
ghost use Rattle.oam.specs.Ticking.{ticked_by, ticked_output, Ticking};

// One tick of 100 ms with the bad frames counted since the last one. The events that arise are stored from the start of a slice
// of fourteen numbers or more, seven an event; fewer is 9, which leaves the end as it is and takes no count.
#[unsafe(no_mangle)]
pub extern "C" fn oam_tick(
    bad_frames: u64,
    events: &mut [u64],
    state: &mut [u8],
    out: &mut [u8],
) -> u64
    ensures { Ticking (ticked_by bad_frames (length events.old) (length out.old) (watch_in state.old)) (ticked_output (length events.old)) (unpacked state.old) events.old state.old out.old result events.new state.new out.new }
{
    oam::oam_tick(bad_frames, events, state, out)
}
