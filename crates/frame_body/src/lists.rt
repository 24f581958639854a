// Whether a body that is a list of parts is whole: the walk over it ends, and does not break off.
ghost use Rattle.std.specs.Prelude.{◌≡◌};
ghost use Rattle.frame_body.specs.Lists.{Descriptors, Containers, whole_list};

use crate::variables::value_octets;

// Every descriptor has three octets: only the last can be cut off.
pub fn descriptors_are_whole(body: &[u8]) -> bool
    ensures { result ≡ whole_list Descriptors body.now }
{
    let (descriptors, rest) = body.as_chunks::<3>();
    for &[branch, _, _] in descriptors {
        if branch == 0 {
            return true;
        }
    }
    rest.is_empty() || rest[0] == 0
}

// A container's fourth octet says how many follow. They are taken by strides: one that is cut off shows by the octet after it,
// which lies past the body's end.
pub fn containers_are_whole(body: &[u8]) -> bool
    ensures { result ≡ whole_list Containers body.now }
{
    let mut at: usize = 0;
    while at < body.len() {
        if body[at] == 0 {
            return true;
        }
        let from = at + 4;
        if body.len() < from {
            return false;
        }
        at = from + value_octets(body[at + 3]);
    }
    at <= body.len()
}
