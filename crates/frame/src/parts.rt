// Parts of the caller's frame, from an octet to its end. A frame that is shorter has an empty one.
ghost use Rattle.std.specs.Prelude.{◌≡◌, drop};
ghost use Rattle.octets.specs.Layout.{body_start, events_start, data_start};

fn part_from(frame: &[u8], at: usize) -> &[u8]
    ensures { result.now ≡ drop at frame.now }
{
    frame.get(at..).unwrap_or(&[])
}

// The body.
pub fn body(frame: &[u8]) -> &[u8]
    ensures { result.now ≡ drop body_start frame.now }
{
    part_from(frame, octets::BODY_START)
}

// The body of an Event Notification after its number.
pub fn events_body(frame: &[u8]) -> &[u8]
    ensures { result.now ≡ drop events_start frame.now }
{
    part_from(frame, octets::EVENTS_START)
}

// The organization's data, padding included.
pub fn organization_data(frame: &[u8]) -> &[u8]
    ensures { result.now ≡ drop data_start frame.now }
{
    part_from(frame, octets::DATA_START)
}
