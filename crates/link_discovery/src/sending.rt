// What is to be sent: the two flag fields, whether an Information frame is allowed, and its TLVs.
ghost use Rattle.std.specs.Prelude.{◌≡◌};
ghost use Rattle.link_discovery.specs.Sending.{local_field, remote_field, fault_flag, allowed_in, own_information, cleared_information, cleared_record};

use crate::Discovery;
use frame_body::Information;
use link_loopback::Role;
use link_peer::Settings;

impl Discovery {
    // The local field of the flags.
    pub fn local_field(self) -> u16
        ensures { result ≡ local_field self }
    {
        match self {
            Discovery::Fault | Discovery::PassiveWait | Discovery::SendLocalRemote => 0,
            Discovery::ActiveSendLocal => 1,
            Discovery::SendLocalRemoteOk | Discovery::SendAny => 2,
        }
    }

    // Whether an Information frame is allowed, by whether the link-fault flag is set.
    pub fn allows(self, fault: bool) -> bool
        ensures { result ≡ allowed_in self fault }
    {
        match self {
            Discovery::Fault => fault,
            Discovery::PassiveWait => false,
            _ => true,
        }
    }
}

// The kept field while a record is held, else 0 (001, Table 57-3).
#[tactic(auto, unfolding(crate::specs::Sending::remote_field))]
pub fn remote_field(kept: u16, held: Option<Information>) -> u16
    ensures { result ≡ remote_field kept held }
{
    if held.is_some() { kept } else { 0 }
}

// FAULT with the link down, if unidirectional.
#[tactic(auto, unfolding(crate::specs::Sending::fault_flag))]
pub fn fault_flag(up: bool, configuration: u8) -> bool
    ensures { result ≡ fault_flag up configuration }
{
    !up && link_peer::is_unidirectional(configuration)
}

// The Local TLV.
#[tactic(auto, unfolding(crate::specs::Sending::own_information))]
pub fn own_information(settings: Settings, revision: u16, role: Role) -> Information
    ensures { result ≡ own_information settings revision role }
{
    Information {
        version: 1,
        revision,
        state: role.octet(),
        configuration: settings.configuration,
        oampdu: settings.size,
        oui: settings.oui,
        vendor: settings.vendor,
    }
}

#[tactic(auto, unfolding(crate::specs::Sending::cleared_information))]
fn cleared_information(i: Information) -> Information
    ensures { result ≡ cleared_information i }
{
    Information {
        state: i.state % 8,
        configuration: i.configuration % 32,
        oampdu: i.oampdu % 2048,
        ..i
    }
}

// The Remote TLV: the peer record's fields with the ignored bits zero.
#[tactic(auto, unfolding(crate::specs::Sending::cleared_record))]
pub fn cleared_record(held: Option<Information>) -> Option<Information>
    ensures { result ≡ cleared_record held }
{
    held.map(cleared_information)
}
