// The lister: frames as lines of hexadecimal text on standard input, their listing on standard output.
//
// The program only moves octets (`listing_program`): what it lists is `text_listing`'s.
#![tactic(auto)]

ghost use Rattle.std.specs.Prelude.{◌<◌, ◌^◌, IfSome, OnOk, length};
ghost use Rattle.std.specs.Io.KnownBytes.{Appends};
ghost use Rattle.text_listing.specs.Listing.{listing};

use listing_program::Failure;
use std::io::{Read, Write};
use std::process::ExitCode;
use text_listing::Progress;

// Where it does not fail, all that is written of an input whose octets are known is its listing. (A proved loop has to end, and
// 2 ^ 62 octets are fewer than its turns.)
fn list<R: Read, W: Write>(input: &mut R, output: &mut W) -> Result<(), Failure>
    ensures { OnOk result (IfSome (R.remaining input.old) (λ octets. length octets < 2 ^ 62 → Appends (W.contents output.old) (W.contents output.new) (listing octets))) }
{
    listing_program::list(Progress::start(), input, output)
}

// A failure is told on standard error, and in the status.
fn main(rt: HostRuntime) -> ExitCode {
    match list(&mut rt.stdin(), &mut rt.stdout()) {
        Ok(()) => ExitCode::SUCCESS,
        Err(failure) => {
            let _ = eprintln!(rt; "{failure}");
            ExitCode::FAILURE
        }
    }
}
