// The program of a lister: the input is read, and its listing written.
//
// It only moves octets: what is listed is the lister's. The input is read in pieces of at most 65,536 octets, and rows wait in
// an output of as many. Whatever waits is written before anything else is read or listed. Where reading fails, the input has
// not ended: what waited is written, and no row follows.
#![tactic(auto)]

ghost use Rattle.std.specs.Prelude.{◌≡◌, ◌≤◌, ◌<◌, ◌^◌, IfSome, IfOk, OnOk, length, take};
ghost use Rattle.std.specs.Io.KnownBytes.{Appends, Consumes, IsAtEnd};
ghost use Rattle.listing_program.specs.Listed.{listed};

use std::fmt::{Display, Formatter};
use std::io::{Read, Write};
use std::{fmt, io};
use text::{Lister, Place};

// The octets that a piece has at most, and the room of the output.
const PIECE: usize = 65_536;

// Why a listing is not whole.
#[derive(Drop)]
pub enum Failure {
    Input(io::Error),
    Output(io::Error),
}

impl Display for Failure {
    fn fmt<W: fmt::Write>(&self, f: &mut Formatter<W>) -> fmt::Result {
        match self {
            Failure::Input(error) => write!(f, "standard input: {error}"),
            Failure::Output(error) => write!(f, "standard output: {error}"),
        }
    }
}

// Reads the next piece: so many octets, and none at the input's end.
fn read<R: Read>(input: &mut R, piece: &mut [u8]) -> Result<usize, Failure>
    ensures bound { IfOk result (λ n. n ≤ length piece.new) }
    ensures consumes { IfOk result (λ n. Consumes (R.remaining input.old) (R.remaining input.new) (take n piece.new)) }
    ensures end { IfOk result (λ n. n ≡ 0 → 0 < length piece.new → IsAtEnd (R.remaining input.new)) }
{
    input.read(piece).map_err(Failure::Input)
}

// Writes what waits.
fn write<W: Write>(output: &mut W, rows: &[u8], waiting: usize) -> Result<(), Failure>
    requires { waiting ≤ length rows.now }
    ensures { OnOk result (Appends (W.contents output.old) (W.contents output.new) (take waiting rows.now)) }
{
    output.write_all(&rows[..waiting]).map_err(Failure::Output)
}

// The input's end: what is left to say is written.
fn end<L: Lister, W: Write>(
    lister: L,
    frame: &[u8],
    rows: &mut [u8],
    output: &mut W,
) -> Result<(), Failure>
    ensures { OnOk result (L.most ≤ length rows.old → Appends (W.contents output.old) (W.contents output.new) (L.steps.last (record { progress = lister; frame = frame.now }))) }
{
    match lister.finish(frame, rows) {
        Ok(waiting) => write(output, rows, waiting),
        Err(_) => Ok(()),
    }
}

// A turn writes what waits; then it reads on where the piece is all taken, and lists on where it is not. Nothing says that
// an input ends, and a proved loop has to: its turns are a number that no run uses up.
pub fn list<L: Lister, R: Read, W: Write>(
    lister: L,
    input: &mut R,
    output: &mut W,
) -> Result<(), Failure>
    ensures { OnOk result (IfSome (R.remaining input.old) (λ octets. length octets < 2 ^ 62 → L.most ≤ 65536 → Appends (W.contents output.old) (W.contents output.new) (listed L.steps lister octets))) }
{
    let mut lister = lister;
    let mut frame = [0u8; 1514];
    let mut piece = [0u8; PIECE];
    let mut rows = [0u8; PIECE];
    let mut size: usize = 0;
    let mut taken: usize = 0;
    let mut waiting = text_listing::put_header(&mut rows);
    for _ in 0..u64::MAX {
        write(output, &rows, waiting)?;
        waiting = 0;
        if taken == size {
            size = read(input, &mut piece)?;
            taken = 0;
            if size == 0 {
                return end(lister, &frame, &mut rows, output);
            }
            continue;
        }
        let place = lister.feed(
            Place { taken, waiting },
            &mut frame,
            &piece[..size],
            &mut rows,
        );
        taken = place.taken;
        waiting = place.waiting;
    }
    Ok(())
}
