// The flags number of a frame, taken apart and put together by shifts and masks.
ghost use Rattle.std.specs.Prelude.{◌≡◌};
ghost use Rattle.frame.specs.Flags.{flags_of, flags_number};

use crate::Flags;

impl From<u16> for Flags {
    ghost from_gives = { λ number flags. flags ≡ flags_of number };

    fn from(number: u16) -> Flags {
        Flags {
            fault: number & 1 == 1,
            gasp: number >> 1 & 1 == 1,
            critical: number >> 2 & 1 == 1,
            local: number >> 3 & 3,
            remote: number >> 5 & 3,
        }
    }
}

impl Flags {
    // The flags number, each field cut to its two bits.
    pub fn number(self) -> u16
        ensures { result ≡ flags_number self }
    {
        (self.remote & 3) << 5
            | (self.local & 3) << 3
            | u16::from(self.critical) << 2
            | u16::from(self.gasp) << 1
            | u16::from(self.fault)
    }
}
