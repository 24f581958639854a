// The zeros after the last part of a frame, up to the shortest frame.
ghost use Rattle.std.specs.Prelude.{◌≡◌, ◌-◌, ◌≤◌, max, length, replicate};
ghost use Rattle.std.proofs.lemmas.List.Edits.{sets};
ghost use Rattle.octets.specs.Layout.{shortest_frame};

use octets::SHORTEST_FRAME;

// The length of a frame whose last part ends before octet end.
pub(crate) fn at_least_shortest(end: usize) -> usize
    ensures { result ≡ max shortest_frame end }
{
    end.max(SHORTEST_FRAME)
}

// Stores zeros from octet end up to the shortest frame, and answers the frame's length.
pub(crate) fn finish(out: &mut [u8], end: usize) -> usize
    requires { max shortest_frame end ≤ length out.old }
    ensures { (result ≡ max shortest_frame end) × (out.new ≡ sets out.old end (replicate (shortest_frame - end) 0)) }
{
    if SHORTEST_FRAME <= end {
        return end;
    }
    out[end..SHORTEST_FRAME].fill(0);
    SHORTEST_FRAME
}
