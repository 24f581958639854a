// The entries that write frames.
ghost use Rattle.std.specs.Prelude.{true, ◌&&◌};
ghost use Rattle.frame.specs.Frame.{information, notification, request, response, loopback, organization};
ghost use Rattle.frame_writer.specs.Writing.{message_of, events_of, parts_from};
ghost use Rattle.frame_writer.specs.Responses.{containers_of, all_containers};
ghost use Rattle.oam.specs.Lending.{lends, held_from};
ghost use Rattle.oam.specs.Writing.{WritingFrame};

use crate::lending::{held_from, lends};
use frame_body::Found;
use frame_writer::Sender;
use oam_outcomes::written_number;

// Writes an Information frame. A TLV is lent as its seven fields in order, or as no number where there is none; numbers
// that are neither are 10.
pub fn oam_write_information(
    source: u64,
    flags: u16,
    local: &[u64],
    remote: &[u64],
    out: &mut [u8],
) -> u64
    ensures { WritingFrame (lends local.now && lends remote.now) (message_of source flags (information (parts_from (held_from local.now) (held_from remote.now)))) out.old result out.new }
{
    if !lends(local) || !lends(remote) {
        return 10;
    }
    let found = Found {
        local: held_from(local),
        remote: held_from(remote),
    };
    written_number(frame_writer::write_information(Sender { source, flags }, found, out))
}

// Writes an Event Notification frame with its number and 1 to 16 events, each lent as seven numbers: its type and its six
// values.
pub fn oam_write_notification(
    source: u64,
    flags: u16,
    number: u16,
    events: &[u64],
    out: &mut [u8],
) -> u64
    ensures { WritingFrame true (message_of source flags (notification number (events_of events.now))) out.old result out.new }
{
    written_number(frame_writer::write_notification(Sender { source, flags }, number, events, out))
}

// Writes a Variable Request frame. A descriptor is one number, the branch above the leaf's sixteen bits.
pub fn oam_write_request(source: u64, flags: u16, descriptors: &[u32], out: &mut [u8]) -> u64
    ensures { WritingFrame true (message_of source flags (request descriptors.now)) out.old result out.new }
{
    written_number(frame_writer::write_request(Sender { source, flags }, descriptors, out))
}

// Writes a Variable Response frame of containers as they stand in a frame, none or more; octets that are not containers to the
// last of them are 10.
pub fn oam_write_response(source: u64, flags: u16, containers: &[u8], out: &mut [u8]) -> u64
    ensures { WritingFrame (all_containers containers.now) (message_of source flags (response (containers_of containers.now))) out.old result out.new }
{
    written_number(frame_writer::write_response(Sender { source, flags }, containers, out))
}

// Writes a Loopback Control frame.
pub fn oam_write_loopback(source: u64, flags: u16, command: u8, out: &mut [u8]) -> u64
    ensures { WritingFrame true (message_of source flags (loopback command)) out.old result out.new }
{
    written_number(frame_writer::write_loopback(Sender { source, flags }, command, out))
}

// Writes an organization specific frame: the OUI and the organization's data.
pub fn oam_write_organization(
    source: u64,
    flags: u16,
    oui: u32,
    octets: &[u8],
    out: &mut [u8],
) -> u64
    ensures { WritingFrame true (message_of source flags (organization oui octets.now)) out.old result out.new }
{
    written_number(frame_writer::write_organization(Sender { source, flags }, oui, octets, out))
}
