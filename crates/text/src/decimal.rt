// A number as decimal digits.
ghost use Rattle.std.specs.Prelude.{◌≡◌, ◌+◌, ◌≤◌, length};
ghost use Rattle.std.proofs.lemmas.List.Edits.{sets};
ghost use Rattle.text.specs.Decimal.{decimal, field};
ghost use Rattle.text.specs.Put.{Put};

use crate::room::room_from;

// How many digits a number has. (Nothing is there to go over but what is left of it.)
pub fn digits(n: u64) -> usize
    ensures { result ≡ length (decimal n) }
{
    let mut count: usize = 1;
    let mut rest = n;
    while 10 <= rest {
        rest /= 10;
        count += 1;
    }
    count
}

// The digits from octet at, the last one first.
fn store(out: &mut [u8], at: usize, count: usize, n: u64)
    requires { (count ≡ length (decimal n)) × (at + count ≤ length out.old) }
    ensures { out.new ≡ sets out.old at (decimal n) }
{
    let mut rest = n;
    for i in (0..count).rev() {
        out[at + i] = b'0' + (rest % 10) as u8;
        rest /= 10;
    }
}

// A decimal field: the digits of a number, and the octet after them that parts it from what follows.
pub fn put_decimal(out: &mut [u8], at: usize, n: u64, after: u8) -> usize
    ensures { Put (field n after) out.old at result out.new }
{
    let count = digits(n);
    if room_from(out, at) <= count {
        return at;
    }
    store(out, at, count, n);
    let end = at + count;
    out[end] = after;
    end + 1
}
