// The room that a lent output has left.
ghost use Rattle.std.specs.Prelude.{◌≡◌, ◌-◌, length};

// How many octets the output has from octet at on: none where `at` lies beyond it.
pub fn room_from(out: &[u8], at: usize) -> usize
    ensures { result ≡ length out.now - at }
{
    out.len().saturating_sub(at)
}
