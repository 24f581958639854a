// An input that is taken in pieces, by calls that are each lent a piece of it and an output for what is said.
ghost use Rattle.std.specs.Prelude.{◌≡◌, ◌≤◌, ℕ, IfOk, Ok, length, take};
ghost use Rattle.text.specs.Pieces.{Steps, State, Within, stage, Feeds};

use octets::Refusal;

// The place of a call in its piece and in its output: the characters of the piece that are taken, and the octets that wait in
// the output to be written.
#[derive(Clone, Copy)]
pub struct Place {
    pub taken: usize,
    pub waiting: usize,
}

// What lists an input: where it stands between two characters. All its calls are lent one working frame.
pub trait Lister: Copy {
    // The step at a character, and the room that no step wants more than.
    ghost steps: { Steps (State Self) };

    ghost most: { ℕ };

    // The piece's characters in order from a place on, with what is said after what waits in the output.
    fn feed(&mut self, place: Place, frame: &mut [u8], piece: &[u8], out: &mut [u8]) -> Place
        ensures { Feeds steps piece.now (stage self.old place frame.old out.old) (stage self.new result frame.new out.new) };

    // What is left to say at the input's end, at the output's front: so many octets, or that there is no room for it.
    fn finish(self, frame: &[u8], out: &mut [u8]) -> Result<usize, Refusal>
        ensures fits { IfOk result (λ n. n ≤ length out.old) }
        ensures says { most ≤ length out.old → (n : ℕ) × (result ≡ Ok n) × (take n out.new ≡ steps.last (record { progress = self; frame = frame.now })) };

    ghost within: { Within steps most };
}
