// The line of an event in the sent-event log, shown as its nine values.
ghost use Rattle.std.specs.Prelude.{length};
ghost use Rattle.oam_showing.specs.Showing.{Showing};
ghost use Rattle.oam_showing.specs.Lines.{line_shown, text_shown};

use crate::storing::show;
use text_eventlog::Line;

// The nine values of a line.
fn show_line(lent: &mut [u64], line: Line) -> u64
    ensures { Showing (line_shown line) lent.old result lent.new }
{
    let numbers: [u64; 9] = [
        line.number,
        line.position,
        line.kind,
        line.timestamp,
        line.window,
        line.threshold,
        line.errors,
        line.error_total,
        line.event_total,
    ];
    show(lent, 0, &numbers)
}

// Reads a line. Its nine values are stored in order; a values slice shorter than that is 9, and a text that is not one line
// in its stated form is 14.
#[tactic(auto, unfolding(crate::specs::Lines::text_shown))]
pub fn read_line(text: &[u8], values: &mut [u64]) -> u64
    ensures { Showing (text_shown text.now (length values.old)) values.old result values.new }
{
    if values.len() < 9 {
        return 9;
    }
    match text_eventlog::read_line(text) {
        Err(refusal) => u64::from(refusal.number()),
        Ok(line) => show_line(values, line),
    }
}
