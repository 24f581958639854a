// Numbers stored in the octets of a lent output.
ghost use Rattle.std.specs.Prelude.{◌≡◌, ◌+◌, ◌≤◌, ◌∷◌, length};
ghost use Rattle.std.proofs.lemmas.List.Edits.{sets};
ghost use Rattle.octets.specs.Octets.{total, oct, octs};

// Stores a number in width octets from octet at.
pub(crate) fn put_number(out: &mut [u8], at: usize, width: usize, value: u64)
    requires { at + width ≤ length out.old }
    ensures { out.new ≡ sets out.old at (oct width value) }
{
    let mut left = value;
    for i in (0..width).rev() {
        out[at + i] = (left % 256) as u8;
        left /= 256;
    }
}

// Stores numbers one after another from octet at, each in its width.
pub(crate) fn put_fields(out: &mut [u8], at: usize, widths: &[usize], values: &[u64])
    requires { (length widths.now ≤ length values.now) × (at + total widths.now ≤ length out.old) }
    ensures { out.new ≡ sets out.old at (octs widths.now values.now) }
{
    let mut position = at;
    for (i, &width) in widths.iter().enumerate() {
        put_number(out, position, width, values[i]);
        position += width;
    }
}

// Stores a TLV from octet at: its type, its length, and its fields, each in its width.
pub(crate) fn put_tlv(
    out: &mut [u8],
    at: usize,
    t: u8,
    octets: usize,
    widths: &[usize],
    values: &[u64],
)
    requires { (length widths.now ≤ length values.now) × (at + 2 + total widths.now ≤ length out.old) }
    ensures { out.new ≡ sets out.old at (octs (1 ∷ 1 ∷ widths.now) (t ∷ octets ∷ values.now)) }
{
    put_number(out, at, 1, u64::from(t));
    put_number(out, at + 1, 1, octets as u64);
    put_fields(out, at + 2, widths, values);
}
