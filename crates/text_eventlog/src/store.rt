// A line, written.
ghost use Rattle.std.specs.Prelude.{◌≡◌, cond, ◌∷◌, ◌≤◌, eqb, length};
ghost use Rattle.std.proofs.lemmas.List.Edits.{sets};
ghost use Rattle.text.specs.Marks.{tab, newline};
ghost use Rattle.text_eventlog.specs.Line.{fields};
ghost use Rattle.text_eventlog.specs.Logging.{Logging};
ghost use Rattle.frame_writer.specs.Writing.{as_written};

use crate::range::in_range;
use octets::Refusal;
use text::{NEWLINE, TAB};

// The octets of a line's fields.
fn fields_octets(values: &[u64]) -> usize
    requires { length values.now ≤ 9 }
    ensures { result ≡ length (fields values.now) }
{
    let mut octets: usize = 0;
    for &value in values {
        octets += text::digits(value) + 1;
    }
    octets
}

// The octet after a field, by how many more fields follow.
fn parting_octet(more: usize) -> u8
    ensures { result ≡ cond (eqb more 0) newline tab }
{
    if more == 0 { NEWLINE } else { TAB }
}

// Stores a line's fields from octet 0, with a tab after each and the newline after the last.
fn put_fields(out: &mut [u8], values: &[u64])
    requires { length (fields values.now) ≤ length out.old }
    ensures { out.new ≡ sets out.old 0 (fields values.now) }
{
    let mut at: usize = 0;
    for i in 0..values.len() {
        let after = parting_octet(values.len() - i - 1);
        at = text::put_decimal(out, at, values[i], after);
    }
}

// The nine values of a line.
fn line_values(number: u64, position: u64, event: &[u64]) -> [u64; 9]
    requires { length event.now ≡ 7 }
    ensures { result ≡ number ∷ position ∷ event.now }
{
    [
        number, position, event[0], event[1], event[2], event[3], event[4], event[5], event[6],
    ]
}

// Writes the line of an event, lent as seven numbers, that was sent at a position of a notification with a number.
pub fn write_line(
    number: u64,
    position: u64,
    event: &[u64],
    out: &mut [u8],
) -> Result<usize, Refusal>
    ensures { Logging number position event.now out.old (as_written result) out.new }
{
    if !in_range(number, position, event) {
        return Err(Refusal::OutOfRange);
    }
    let values = line_values(number, position, event);
    let octets = fields_octets(&values);
    if out.len() < octets {
        return Err(Refusal::ShortOutput);
    }
    put_fields(out, &values);
    Ok(octets)
}
