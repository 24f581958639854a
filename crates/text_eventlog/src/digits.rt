// A decimal field, read.
ghost use Rattle.std.specs.Prelude.{◌≡◌};
ghost use Rattle.text_eventlog.specs.Digits.{no_leading_zero, number_of, with_digit};

// Whether a field has no leading zero, and is not empty.
fn no_leading_zero(field: &[u8]) -> bool
    ensures { result ≡ no_leading_zero field.now }
{
    match field {
        [] => false,
        [_] => true,
        [first, ..] => *first != b'0',
    }
}

// A number with one more digit; none where the octet is no digit, or the number goes beyond 64 bits. (The bound is tested before the
// digit is added: with checked operations the compiler writes the loop over the fields out once for each field, and its counters no
// longer fit in registers.)
#[tactic(auto, unfolding(crate::specs::Digits::with_digit))]
fn with_digit(n: u64, octet: u8) -> Option<u64>
    ensures { result ≡ with_digit n octet }
{
    if !octet.is_ascii_digit() {
        return None;
    }
    let digit = u64::from(octet - b'0');
    if (u64::MAX - digit) / 10 < n {
        return None;
    }
    Some(n * 10 + digit)
}

// The number of a field that is decimal throughout.
pub(crate) fn number_of(field: &[u8]) -> Option<u64>
    ensures { result ≡ number_of field.now }
{
    if !no_leading_zero(field) {
        return None;
    }
    let mut n: u64 = 0;
    for &octet in field {
        n = with_digit(n, octet)?;
    }
    Some(n)
}
