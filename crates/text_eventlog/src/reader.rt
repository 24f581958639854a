// A line, read.
ghost use Rattle.std.specs.Prelude.{◌≡◌, [], ◌+◌, ◌≤◌, length, get_or, drop};
ghost use Rattle.text_eventlog.specs.Line.{as_reading, last_position, parted, read_values, read_fields, read_line};

use crate::Line;
use crate::digits::number_of;
use crate::range::in_range;
use octets::Refusal;
use text::TAB;

// The octet after the field that begins at octet at: the next tab, or the end.
fn field_end(text: &[u8], at: usize) -> usize
    requires { at ≤ length text.now }
    ensures { result ≡ at + length (get_or (parted (drop at text.now)) 0 []) }
{
    for end in at..text.len() {
        if text[end] == TAB {
            return end;
        }
    }
    text.len()
}

// What nine values say, if each is in its range.
#[tactic(auto, unfolding(crate::specs::Line::read_values))]
fn read_values(values: [u64; 9]) -> Result<Line, Refusal>
    ensures { as_reading result ≡ read_values last_position values }
{
    let [
        number,
        position,
        kind,
        timestamp,
        window,
        threshold,
        errors,
        error_total,
        event_total,
    ] = values;
    if !in_range(number, position, &values[2..]) {
        return Err(Refusal::NotALine);
    }
    Ok(Line {
        number,
        position,
        kind,
        timestamp,
        window,
        threshold,
        errors,
        error_total,
        event_total,
    })
}

// What nine fields say: each but the last ends at a tab, and the last at the end.
fn read_fields(text: &[u8]) -> Result<Line, Refusal>
    ensures { as_reading result ≡ read_fields last_position (parted text.now) }
{
    let mut values = [0u64; 9];
    let mut at: usize = 0;
    for i in 0..8usize {
        let end = field_end(text, at);
        if text.len() <= end {
            return Err(Refusal::NotALine);
        }
        let Some(value) = number_of(&text[at..end]) else {
            return Err(Refusal::NotALine);
        };
        values[i] = value;
        at = end + 1;
    }
    let Some(value) = number_of(&text[at..]) else {
        return Err(Refusal::NotALine);
    };
    values[8] = value;
    read_values(values)
}

// What a line of the log says, or 14 for a text that is not one line in its stated form.
#[tactic(auto, unfolding(crate::specs::Line::read_line_up_to))]
pub fn read_line(text: &[u8]) -> Result<Line, Refusal>
    ensures { as_reading result ≡ read_line text.now }
{
    match text {
        [line @ .., b'\n'] => read_fields(line),
        _ => Err(Refusal::NotALine),
    }
}
