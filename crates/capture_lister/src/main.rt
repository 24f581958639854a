// The capture lister: a capture file on standard input, the listing of its records on standard output.
//
// The program only moves octets (`listing_program`): what it lists is `text_captures`'s. Whatever waits is written before
// anything else is read or listed; so an engineer who feeds it through a pipe sees each record's row as it comes.
//
// The sample (`stdin`, `stdout`) is a little-endian file of 5,300 records and five octets of another record's header, made so
// that its rows are more than the output holds. Of every fifty records, counted from 1, the first and the eleventh are the
// first and the third frame of the lister's sample, the twenty-first has 20 octets stored of 60, the thirty-first is a frame of
// 59 octets, and the others have no octet.
#![tactic(auto)]

ghost use Rattle.std.specs.Prelude.{◌<◌, ◌^◌, IfSome, OnOk, length};
ghost use Rattle.std.specs.Io.KnownBytes.{Appends};
ghost use Rattle.text_captures.specs.Captures.{capture_listing};

use listing_program::Failure;
use std::io::{Read, Write};
use std::process::ExitCode;
use text_captures::Progress;

// Where it does not fail, all that is written of an input whose octets are known is its listing. (A proved loop has to end, and
// 2 ^ 62 octets are fewer than its turns.)
fn list<R: Read, W: Write>(input: &mut R, output: &mut W) -> Result<(), Failure>
    ensures { OnOk result (IfSome (R.remaining input.old) (λ octets. length octets < 2 ^ 62 → Appends (W.contents output.old) (W.contents output.new) (capture_listing octets))) }
{
    listing_program::list(Progress::start(), input, output)
}

// A failure is told on standard error, and in the status.
fn main(rt: HostRuntime) -> ExitCode {
    match list(&mut rt.stdin(), &mut rt.stdout()) {
        Ok(()) => ExitCode::SUCCESS,
        Err(failure) => {
            let _ = eprintln!(rt; "{failure}");
            ExitCode::FAILURE
        }
    }
}
