// Loopback: the five roles, their State octets, and what a frame or a request makes of them.
#![tactic(auto)]

mod loopback;
mod roles;

// The role of an end in a remote loopback.
#[derive(Clone, Copy, PartialEq, Eq)]
pub enum Role {
    // none
    Idle,
    // it has sent an enable, and waits for the peer to loop
    Asking,
    // the peer sends back what it sends
    Holding,
    // it has sent a disable, and waits for the peer to end
    Ending,
    // it sends back what comes
    Looping,
}
