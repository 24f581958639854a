// The headers of a capture file: what is read of the file's own, and numbers in its byte order.
ghost use Rattle.std.specs.Prelude.{◌≡◌, ◌+◌, ◌≤◌, length};
ghost use Rattle.text_captures.specs.Captures.{number, is_little, is_capture};

// The octets of a file's header and of a record's; the magic number, and the one link type that is read, Ethernet's.
pub const FILE_HEADER: usize = 24;

pub const RECORD_HEADER: usize = 16;

const MAGIC: u32 = 0xa1b2c3d4;

const LINK_TYPE: u32 = 1;

// The number of the four octets from octet at.
#[tactic(auto, unfolding(crate::specs::Captures::number))]
pub(crate) fn number(little: bool, octets: &[u8], at: usize) -> u32
    requires { at + 4 ≤ length octets.now }
    ensures { result ≡ number little octets.now at }
{
    let number = [octets[at], octets[at + 1], octets[at + 2], octets[at + 3]];
    if little {
        u32::from_le_bytes(number)
    } else {
        u32::from_be_bytes(number)
    }
}

// Whether a file's numbers are little-endian.
#[tactic(auto, unfolding(crate::specs::Captures::is_little))]
pub(crate) fn is_little(header: &[u8]) -> bool
    requires { 24 ≤ length header.now }
    ensures { result ≡ is_little header.now }
{
    number(true, header, 0) == MAGIC
}

// Whether a file's header is one of a capture that is read here, with its numbers in that order.
#[tactic(auto, unfolding(crate::specs::Captures::is_capture))]
pub(crate) fn is_capture(little: bool, header: &[u8]) -> bool
    requires { (24 ≤ length header.now) × (little ≡ is_little header.now) }
    ensures { result ≡ is_capture header.now }
{
    number(little, header, 0) == MAGIC && number(little, header, 20) == LINK_TYPE
}
