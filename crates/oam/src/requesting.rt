// The entries of the six requests, on an end that is kept in octets that the caller lends.
ghost use Rattle.std.specs.Prelude.{length};
ghost use Rattle.theorems_reach.specs.Machine.{start, stop, variables, notify, tell, respond, request as requesting, outcome_by, output_by};
ghost use Rattle.oam_packing.specs.Octets.{unpacked};
ghost use Rattle.oam.specs.Machine.{Stepping};

use oam_outcomes::store_outcome;

// Starts a remote loopback.
pub fn oam_start(state: &mut [u8], out: &mut [u8]) -> u64
    ensures { Stepping (outcome_by (requesting start) (length out.old)) (output_by (requesting start)) (unpacked state.old) state.old out.old result state.new out.new }
{
    match oam_packing::unpack(state) {
        Err(refusal) => u64::from(refusal.number()),
        Ok(mut end) => {
            let step = link::start(&mut end, out);
            store_outcome(link::told(&end, step), state)
        }
    }
}

// Stops a remote loopback.
pub fn oam_stop(state: &mut [u8], out: &mut [u8]) -> u64
    ensures { Stepping (outcome_by (requesting stop) (length out.old)) (output_by (requesting stop)) (unpacked state.old) state.old out.old result state.new out.new }
{
    match oam_packing::unpack(state) {
        Err(refusal) => u64::from(refusal.number()),
        Ok(mut end) => {
            let step = link::stop(&mut end, out);
            store_outcome(link::told(&end, step), state)
        }
    }
}

// Asks for the peer's variables. A descriptor is one number, the branch above the leaf's sixteen bits.
pub fn oam_request(descriptors: &[u32], state: &mut [u8], out: &mut [u8]) -> u64
    ensures { Stepping (outcome_by (requesting (variables descriptors.now)) (length out.old)) (output_by (requesting (variables descriptors.now))) (unpacked state.old) state.old out.old result state.new out.new }
{
    match oam_packing::unpack(state) {
        Err(refusal) => u64::from(refusal.number()),
        Ok(mut end) => {
            let step = link::request_variables(&mut end, descriptors, out);
            store_outcome(link::told(&end, step), state)
        }
    }
}

// Notifies the peer of events, each lent as seven numbers: its type and its six values.
pub fn oam_notify(events: &[u64], state: &mut [u8], out: &mut [u8]) -> u64
    ensures { Stepping (outcome_by (requesting (notify events.now)) (length out.old)) (output_by (requesting (notify events.now))) (unpacked state.old) state.old out.old result state.new out.new }
{
    match oam_packing::unpack(state) {
        Err(refusal) => u64::from(refusal.number()),
        Ok(mut end) => {
            let step = link::notify(&mut end, events, out);
            store_outcome(link::told(&end, step), state)
        }
    }
}

// Sends an organization's data with its OUI.
pub fn oam_organization(oui: u32, octets: &[u8], state: &mut [u8], out: &mut [u8]) -> u64
    ensures { Stepping (outcome_by (requesting (tell oui octets.now)) (length out.old)) (output_by (requesting (tell oui octets.now))) (unpacked state.old) state.old out.old result state.new out.new }
{
    match oam_packing::unpack(state) {
        Err(refusal) => u64::from(refusal.number()),
        Ok(mut end) => {
            let step = link::send_organization(&mut end, oui, octets, out);
            store_outcome(link::told(&end, step), state)
        }
    }
}

// Answers the peer's descriptors by the attributes that the caller holds, lent as two numbers each, descriptor and width, and
// their values one after another.
pub fn oam_respond(
    attributes: &[u32],
    values: &[u8],
    descriptors: &[u32],
    state: &mut [u8],
    out: &mut [u8],
) -> u64
    ensures { Stepping (outcome_by (requesting (respond attributes.now values.now descriptors.now)) (length out.old)) (output_by (requesting (respond attributes.now values.now descriptors.now))) (unpacked state.old) state.old out.old result state.new out.new }
{
    match oam_packing::unpack(state) {
        Err(refusal) => u64::from(refusal.number()),
        Ok(mut end) => {
            let step = link::respond(&mut end, attributes, values, descriptors, out);
            store_outcome(link::told(&end, step), state)
        }
    }
}
