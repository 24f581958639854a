// Loopback: what a Local TLV and a command make of the role, and which requests the role, the mode and the peer allow.
ghost use Rattle.std.specs.Prelude.{◌≡◌};
ghost use Rattle.link_loopback.specs.Loopback.{after_actions, role_after_local, takes_enable, is_looping, obeys, role_after_command, starts, stops, may_start, may_stop, role_fits};

use crate::Role;
use frame_body::Information;

// The command that asks the peer to loop; each other one asks it to stop.
const ENABLE: u8 = 1;

impl Role {
    fn after_actions(self, looping: bool, forward: bool) -> Role
        ensures { result ≡ after_actions self looping forward }
    {
        match self {
            Role::Asking if looping => Role::Holding,
            Role::Ending if forward => Role::Idle,
            _ => self,
        }
    }

    // The role after a Local TLV with parser and multiplexer actions.
    #[tactic(auto, unfolding(crate::specs::Loopback::role_after_local))]
    pub fn after_local(self, local: Option<Information>) -> Role
        ensures { result ≡ role_after_local local self }
    {
        match local {
            None => self,
            Some(i) => self.after_actions(i.state % 8 == 5, i.state % 8 == 0),
        }
    }

    fn takes_enable(self, higher: bool) -> bool
        ensures { result ≡ takes_enable self higher }
    {
        match self {
            Role::Idle | Role::Looping => true,
            Role::Asking => higher,
            Role::Holding | Role::Ending => false,
        }
    }

    fn is_looping(self) -> bool
        ensures { result ≡ is_looping self }
    {
        self == Role::Looping
    }

    // Whether a loopback command is obeyed.
    #[tactic(auto, unfolding(crate::specs::Loopback::obeys))]
    pub fn obeys(
        self,
        command: u8,
        higher: bool,
        configuration: u8,
        held: Option<Information>,
    ) -> bool
        ensures { result ≡ obeys command higher configuration held self }
    {
        if command == ENABLE {
            link_peer::is_loopback(configuration)
                && link_peer::is_peer_active(held)
                && self.takes_enable(higher)
        } else {
            self.is_looping()
        }
    }

    // The role after a loopback command, by whether it is obeyed.
    pub fn after_command(self, command: u8, obeyed: bool) -> Role
        ensures { result ≡ role_after_command command obeyed self }
    {
        if !obeyed {
            self
        } else if command == ENABLE {
            Role::Looping
        } else {
            Role::Idle
        }
    }

    fn starts(self) -> bool
        ensures { result ≡ starts self }
    {
        matches!(self, Role::Idle | Role::Asking)
    }

    fn stops(self) -> bool
        ensures { result ≡ stops self }
    {
        matches!(self, Role::Asking | Role::Holding | Role::Ending)
    }

    // Whether a loopback start is allowed by the mode, the peer's capability and the role.
    #[tactic(auto, unfolding(crate::specs::Loopback::may_start))]
    pub fn may_start(self, configuration: u8, held: Option<Information>) -> bool
        ensures { result ≡ may_start configuration held self }
    {
        link_peer::is_active(configuration) && link_peer::is_peer_loopback(held) && self.starts()
    }

    // Whether a loopback stop is allowed by the mode and the role.
    #[tactic(auto, unfolding(crate::specs::Loopback::may_stop))]
    pub fn may_stop(self, configuration: u8) -> bool
        ensures { result ≡ may_stop configuration self }
    {
        link_peer::is_active(configuration) && self.stops()
    }

    // Whether an end's own settings allow it a role.
    pub fn fits(self, configuration: u8) -> bool
        ensures { result ≡ role_fits configuration self }
    {
        match self {
            Role::Idle => true,
            Role::Asking | Role::Holding | Role::Ending => link_peer::is_active(configuration),
            Role::Looping => link_peer::is_loopback(configuration),
        }
    }
}
