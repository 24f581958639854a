// The tick with its count of bad frames: the end's tick and the watch's count are taken together, or neither is.
//
// The end and the watch stand side by side, and neither steps by the other. This is the tick that callers are offered: with one
// that takes no count the two would drift apart.
#![tactic(auto)]

ghost use Rattle.std.specs.Prelude.{◌≡◌, length};
ghost use Rattle.link.specs.Ticks.{tick_output};
ghost use Rattle.link_counting.specs.Counting.{told_tick, counted_tick};

use link::Step;
use link_end::End;
use link_windows::{Arisen, Watch};
use octets::Refusal;

// What such a tick comes to that is not refused: the end's step, and what arose.
#[derive(Clone, Copy)]
pub struct Ticked {
    pub step: Step,
    pub arisen: Arisen,
}

// One tick of 100 ms with its count of bad frames. A refused one (`ShortOutput`, for an output of under 60 octets) takes no count,
// and leaves the watch as it leaves the end.
#[tactic(auto, unfolding(crate::specs::Counting::counted_tick))]
pub fn counted_tick(
    end: &mut End,
    watch: &mut Watch,
    count: u64,
    out: &mut [u8],
) -> Result<Ticked, Refusal>
    ensures { (told_tick end.new watch.new result ≡ counted_tick (length out.old) end.old watch.old count) × (out.new ≡ tick_output end.old out.old) }
{
    let step = link::tick(end, out)?;
    let arisen = watch.take_count(count);
    Ok(Ticked { step, arisen })
}
