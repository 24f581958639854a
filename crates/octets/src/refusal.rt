// Why a frame, a request or a file is refused.
ghost use Rattle.std.specs.Prelude.{◌≡◌};
ghost use Rattle.octets.specs.Refusals.{number};

// The refusals, each with its number: of a received frame (1 to 8), of what is to be written or asked (9 to 13, and 15), of a line
// of the log (14), and of a capture file (16 to 18).
#[derive(Clone, Copy, PartialEq, Eq, Debug)]
pub enum Refusal {
    // a received frame is not 60 to 1,514 octets
    WrongLength = 1,
    // its destination is not 01-80-C2-00-00-02
    WrongDestination,
    // its Length/Type is not 88-09
    WrongType,
    // its subtype is not 3
    WrongSubtype,
    // its code is 05 to FD, or FF
    WrongCode,
    // a TLV, descriptor or container in it is broken
    Broken,
    // it has a second Local, or a second Remote, Information TLV
    SecondTlv,
    // its loopback command is not 1 or 2
    WrongCommand,
    // a lent output or slice of numbers is too short
    ShortOutput,
    // settings or values are out of range, or octets are no state
    OutOfRange,
    // a request while discovery is not in SEND_ANY
    NotInSendAny,
    // a frame, plus 4, exceeds the smaller of the two maximum sizes
    ExceedsMaximum,
    // ten frames are written in the present tick interval and the ten before it
    TenFramesWritten,
    // a text is no line of the log in its stated form
    NotALine,
    // a role, a mode, or a capability of either side forbids it
    Forbidden,
    // octets are no capture file that is read
    NotACapture,
    // a capture stores fewer octets of a frame than it had
    Shortened,
    // a capture ends inside a record or its header
    CutOff,
}

impl Refusal {
    // The number that is shown for it and given over C.
    pub fn number(self) -> u8
        ensures { result ≡ number self }
    {
        self as u8
    }
}
