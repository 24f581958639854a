// The numbers that stand at fixed octets of a frame, for whoever needs them of one that is accepted.
ghost use Rattle.std.specs.Prelude.{◌≡◌};
ghost use Rattle.frame.specs.Frame.{header_of, event_number, command_of, fixed_number};

use crate::Header;
use octets::BODY_START;

// What is shown of a frame in which so many TLVs were skipped: what stands before the body, zeros where it is too short to be
// accepted, and that number, which is the judge's.
#[tactic(auto, unfolding(crate::specs::Frame::header_of))]
pub fn header_of(frame: &[u8], skipped: u16) -> Header
    ensures { result ≡ header_of frame.now skipped }
{
    if frame.len() < octets::SHORTEST_FRAME {
        return Header {
            source: 0,
            flags: 0,
            code: 0,
            skipped,
        };
    }
    // the source's low octets before its high ones: the compiler then takes those four at once
    let low = u32::from_be_bytes([frame[8], frame[9], frame[10], frame[11]]);
    let high = u16::from_be_bytes([frame[6], frame[7]]);
    Header {
        source: u64::from(high) * 0x100000000 + u64::from(low),
        flags: u16::from_be_bytes([frame[15], frame[16]]),
        code: frame[17],
        skipped,
    }
}

// The number of an Event Notification; 0 where a frame is too short to be accepted.
#[tactic(auto, unfolding(crate::specs::Frame::event_number))]
pub fn event_number(frame: &[u8]) -> u16
    ensures { result ≡ event_number frame.now }
{
    if frame.len() < octets::SHORTEST_FRAME {
        return 0;
    }
    u16::from_be_bytes([frame[BODY_START], frame[BODY_START + 1]])
}

// The command of a Loopback Control frame; 0 where a frame is too short to be accepted.
#[tactic(auto, unfolding(crate::specs::Frame::command_of))]
pub fn command_of(frame: &[u8]) -> u8
    ensures { result ≡ command_of frame.now }
{
    if frame.len() < octets::SHORTEST_FRAME {
        return 0;
    }
    frame[BODY_START]
}

// The number at the start of the body: the event number, the command or the OUI, by the code; 0 where there is none.
#[tactic(auto, unfolding(crate::specs::Frame::fixed_number))]
pub fn fixed_number(frame: &[u8]) -> u32
    ensures { result ≡ fixed_number frame.now }
{
    if frame.len() < octets::SHORTEST_FRAME {
        return 0;
    }
    let code = frame[17];
    match code {
        1 => u32::from_be_bytes([0, 0, frame[BODY_START], frame[BODY_START + 1]]),
        4 => u32::from(frame[BODY_START]),
        0xfe => u32::from_be_bytes([
            0,
            frame[BODY_START],
            frame[BODY_START + 1],
            frame[BODY_START + 2],
        ]),
        _ => 0,
    }
}
