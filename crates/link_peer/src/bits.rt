// The named bits of a configuration octet: of an end's own settings, and of what is kept of its peer.
ghost use Rattle.std.specs.Prelude.{◌≡◌};
ghost use Rattle.octets.specs.Bits.{bit};

// Bit 0: active mode.
#[tactic(auto, unfolding(octets::specs::Bits::bit))]
pub fn is_active(configuration: u8) -> bool
    ensures { result ≡ bit 0 configuration }
{
    configuration & 1 == 1
}

// Bit 1: it can send while its link is down.
#[tactic(auto, unfolding(octets::specs::Bits::bit))]
pub fn is_unidirectional(configuration: u8) -> bool
    ensures { result ≡ bit 1 configuration }
{
    configuration >> 1 & 1 == 1
}

// Bit 2: it can loop.
#[tactic(auto, unfolding(octets::specs::Bits::bit))]
pub fn is_loopback(configuration: u8) -> bool
    ensures { result ≡ bit 2 configuration }
{
    configuration >> 2 & 1 == 1
}

// Bit 4: it answers requests for variables.
#[tactic(auto, unfolding(octets::specs::Bits::bit))]
pub(crate) fn is_variable_retrieval(configuration: u8) -> bool
    ensures { result ≡ bit 4 configuration }
{
    configuration >> 4 & 1 == 1
}
