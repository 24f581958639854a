// Writes OAM frames in plain form, straight into the caller's output.
//
// Every writer refuses what has no plain form as out of range, then an output that is too short, and touches the output only
// after both tests; else it gives the octets of the frame that it wrote. What it writes reads back as what was meant
// (`theorems_frame`).
#![tactic(auto)]

mod events;
mod local_remote;
mod padding;
mod requests;
mod responses;
mod sender;
mod small;
mod storing;

pub use events::{notification_octets, plain_seven, write_notification};
pub use local_remote::write_information;
pub use requests::{request_octets, write_request};
pub use responses::{needed_octets, write_answers, write_response};
pub use sender::Sender;
pub use small::{organization_octets, write_loopback, write_organization};

// The most events that a notification is written with.
pub const MOST_EVENTS: usize = 16;
