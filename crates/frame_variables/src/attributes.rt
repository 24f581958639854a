// The attributes that a box holds, as they are lent: whether they are in range.
ghost use Rattle.std.specs.Prelude.{◌≡◌, ◌≤◌, length};
ghost use Rattle.frame_variables.specs.Attributes.{formed_pair, formed_pairs, held_in, distinct, widths, formed_attributes};

use crate::descriptors::plain_descriptor;
use crate::{MOST_ATTRIBUTES, MOST_WIDTH};

// An attribute's descriptor has a plain form, and its width is 1 to 128.
fn formed_pair(descriptor: u32, width: u32) -> bool
    ensures { result ≡ formed_pair descriptor width }
{
    plain_descriptor(descriptor) && (1..=MOST_WIDTH).contains(&width)
}

// Whether the numbers are attributes, two each, and every one is in range.
fn formed_pairs(attributes: &[u32]) -> bool
    ensures { result ≡ formed_pairs attributes.now }
{
    let (pairs, rest) = attributes.as_chunks::<2>();
    pairs
        .iter()
        .all(|&[descriptor, width]| formed_pair(descriptor, width))
        && rest.is_empty()
}

// Whether one of the attributes has a descriptor.
fn held_in(attributes: &[u32], descriptor: u32) -> bool
    ensures { result ≡ held_in descriptor attributes.now }
{
    let (pairs, _) = attributes.as_chunks::<2>();
    pairs.iter().any(|&[held, _]| held == descriptor)
}

// Whether no descriptor is held twice: each is compared with those after it.
fn distinct(attributes: &[u32]) -> bool
    ensures { result ≡ distinct attributes.now }
{
    let mut left = attributes;
    while let [descriptor, _, others @ ..] = left {
        if held_in(others, *descriptor) {
            return false;
        }
        left = others;
    }
    true
}

// The sum of the widths.
fn widths(attributes: &[u32]) -> usize
    requires { length attributes.now ≤ 128 }
    ensures { result ≡ widths attributes.now }
{
    let (pairs, _) = attributes.as_chunks::<2>();
    let mut sum = 0;
    for &[_, width] in pairs {
        sum += width as usize;
    }
    sum
}

// Whether attributes are in range: at most 64, each in range, none held twice, and as many octets of values as the widths say.
#[tactic(auto, unfolding(crate::specs::Attributes::formed_attributes))]
pub(crate) fn formed_attributes(attributes: &[u32], values: &[u8]) -> bool
    ensures { result ≡ formed_attributes attributes.now values.now }
{
    attributes.len() <= 2 * MOST_ATTRIBUTES
        && formed_pairs(attributes)
        && distinct(attributes)
        && widths(attributes) == values.len()
}
