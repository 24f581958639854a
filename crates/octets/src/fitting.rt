// Whether numbers fit in octets.
ghost use Rattle.std.specs.Prelude.{◌≡◌, ◌^◌, ◌<◌, ltb};
ghost use Rattle.octets.specs.Octets.{fit};

// Whether a number fits in width octets. (It is compared with a bound, and not shifted: of the widths of an event, which hang on its
// type, the compiler makes constant bounds, where a shift would be by a register.)
pub fn fits(value: u64, width: usize) -> bool
    ensures { result ≡ ltb value (256 ^ width) }
{
    match width {
        0 => value == 0,
        1..=7 => value <= u64::MAX >> (64 - 8 * width),
        _ => true,
    }
}

// Whether each number fits its width, as far as there are both.
pub fn all_fit(widths: &[usize], values: &[u64]) -> bool
    ensures { result ≡ fit widths.now values.now }
{
    widths
        .iter()
        .zip(values)
        .all(|(width, value)| fits(*value, *width))
}
