// What a state is made of: parts that are kept in octets.
ghost use Rattle.std.specs.Prelude.{◌+◌, ◌<◌, ◌≤◌, ◌≡◌, ℕ, List, Bool, length, take, drop};
ghost use Rattle.std.proofs.lemmas.List.Edits.{sets};
ghost use Rattle.octets.specs.Octets.{zeros};
ghost use Rattle.oam_packing.specs.Parts.{held_or_zero};

// A part that is kept in N octets.
pub(crate) trait Part<const N: usize>: Copy {
    ghost octets: { Self → List ℕ };

    ghost from: { List ℕ → Self };

    ghost fitting: { List ℕ → Bool };

    // Stores the part from octet at.
    fn put(self, out: &mut [u8], at: usize)
        requires { at + N ≤ length out.old }
        ensures { out.new ≡ sets out.old at (octets self) };

    // The part whose octets they are, which some part's are.
    fn from_octets(kept: &[u8; N]) -> Self
        ensures { result ≡ from kept.now };

    // Whether they are those of some such part.
    fn are_octets(kept: &[u8; N]) -> bool
        ensures { result ≡ fitting kept.now };
}

// The N octets of some octets from octet at.
pub(crate) fn octets_at<const N: usize>(octets: &[u8], at: usize) -> &[u8; N]
    requires { at + N ≤ length octets.now }
    ensures { result.now ≡ take N (drop at octets.now) }
{
    octets[at..].first_chunk::<N>().unwrap()
}

fn is_zeros(octets: &[u8]) -> bool
    ensures { result ≡ zeros octets.now }
{
    octets.iter().all(|octet| *octet == 0)
}

// Whether octets say that something is held, or are all 0.
#[tactic(auto, unfolding(crate::specs::Parts::held_or_zero))]
pub(crate) fn is_held_or_zero(octets: &[u8]) -> bool
    requires { 0 < length octets.now }
    ensures { result ≡ held_or_zero octets.now }
{
    octets[0] == 1 || is_zeros(octets)
}
