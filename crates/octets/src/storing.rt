// Octets stored in a lent output.
ghost use Rattle.std.specs.Prelude.{◌≡◌};
ghost use Rattle.std.proofs.lemmas.List.Edits.{sets};

// Stores octets from octet at, as far as the output has room for them. (One by one: `copy_from_slice` is a call of the C
// library's `memmove`, and the archive is to need no function of it but `memset`.)
pub fn put_octets(out: &mut [u8], at: usize, octets: &[u8])
    ensures { out.new ≡ sets out.old at octets.now }
{
    if at < out.len() {
        for i in 0..octets.len().min(out.len() - at) {
            out[at + i] = octets[i];
        }
    }
}
