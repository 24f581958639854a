// The entries of the sent-event log, one line an event.
ghost use Rattle.std.specs.Prelude.{length};
ghost use Rattle.oam_showing.specs.Showing.{Showing};
ghost use Rattle.oam_showing.specs.Lines.{text_shown};
ghost use Rattle.oam.specs.Logging.{WritingLine};

// Writes the line of an event, lent as seven numbers, that was sent at a position of a notification with a number.
#[unsafe(no_mangle)]
pub extern "C" fn oam_log_write(number: u64, position: u64, event: &[u64], out: &mut [u8]) -> u64
    ensures { WritingLine number position event.now out.old result out.new }
{
    oam::oam_log_write(number, position, event, out)
}

// Reads a line (`oam_showing::read_line`).
#[unsafe(no_mangle)]
pub extern "C" fn oam_log_read(text: &[u8], values: &mut [u64]) -> u64
    ensures { Showing (text_shown text.now (length values.old)) values.old result values.new }
{
    oam::oam_log_read(text, values)
}
