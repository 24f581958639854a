// The State octet of each role, and the number that it is kept by.
ghost use Rattle.std.specs.Prelude.{◌≡◌};
ghost use Rattle.link_loopback.specs.Roles.{octet_of, role_number, role_of};

use crate::Role;

impl Role {
    // The State octet of each role: how its multiplexer and its parser stand.
    pub const IDLE: u8 = 0;

    pub const ASKING: u8 = 6;

    pub const HOLDING: u8 = 2;

    pub const ENDING: u8 = 6;

    pub const LOOPING: u8 = 5;

    // The State octet that an Information frame tells.
    pub fn octet(self) -> u8
        ensures { result ≡ octet_of self }
    {
        match self {
            Role::Idle => Role::IDLE,
            Role::Asking => Role::ASKING,
            Role::Holding => Role::HOLDING,
            Role::Ending => Role::ENDING,
            Role::Looping => Role::LOOPING,
        }
    }

    // Asking and Ending have one octet, so a role is kept by a number of its own.
    pub fn number(self) -> u8
        ensures { result ≡ role_number self }
    {
        self as u8
    }
}

// The role of a number; each from 4 on is that of Looping.
impl From<u8> for Role {
    ghost from_gives = { λ number role. role ≡ role_of number };

    fn from(number: u8) -> Role {
        match number {
            0 => Role::Idle,
            1 => Role::Asking,
            2 => Role::Holding,
            3 => Role::Ending,
            _ => Role::Looping,
        }
    }
}
