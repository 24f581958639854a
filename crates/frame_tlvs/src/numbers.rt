// Numbers that stand in the octets of a slice, the first octet first.
ghost use Rattle.std.specs.Prelude.{◌≡◌, true, ◌+◌, ◌≤◌, length};
ghost use Rattle.octets.specs.Octets.{num};
ghost use Rattle.frame_tlvs.specs.Events.{is_word};

// The number in two, four or eight octets from an octet. Where the width is a constant it is one load.
pub(crate) fn number(s: &[u8], at: usize, width: usize) -> u64
    requires { (is_word width ≡ true) × (at + width ≤ length s.now) }
    ensures { result ≡ num width s.now at }
{
    match width {
        2 => u64::from(u16::from_be_bytes([s[at], s[at + 1]])),
        4 => u64::from(u32::from_be_bytes([s[at], s[at + 1], s[at + 2], s[at + 3]])),
        _ => u64::from_be_bytes([
            s[at],
            s[at + 1],
            s[at + 2],
            s[at + 3],
            s[at + 4],
            s[at + 5],
            s[at + 6],
            s[at + 7],
        ]),
    }
}
