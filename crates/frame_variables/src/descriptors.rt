// Descriptors in plain form.
ghost use Rattle.std.specs.Prelude.{◌≡◌};
ghost use Rattle.frame_variables.specs.Descriptors.{plain_descriptor, plain_descriptors};

// A descriptor of three octets, whose branch is not 0.
pub(crate) fn plain_descriptor(descriptor: u32) -> bool
    ensures { result ≡ plain_descriptor descriptor }
{
    (65536..0x1000000).contains(&descriptor)
}

// Whether they are 1 to so many descriptors in plain form.
pub fn plain_descriptors(most: usize, descriptors: &[u32]) -> bool
    ensures { result ≡ plain_descriptors most descriptors.now }
{
    (1..=most).contains(&descriptors.len()) && descriptors.iter().all(|d| plain_descriptor(*d))
}
