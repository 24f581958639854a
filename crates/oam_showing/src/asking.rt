// The descriptors of a Variable Request, all stored in a slice that the caller lends.
ghost use Rattle.std.specs.Prelude.{◌≡◌, ◌≤◌, length};
ghost use Rattle.std.proofs.lemmas.List.Edits.{sets};
ghost use Rattle.octets.specs.Layout.{longest_frame};
ghost use Rattle.frame.specs.Frame.{request};
ghost use Rattle.oam_showing.specs.Showing.{Showing};
ghost use Rattle.oam_showing.specs.Asking.{descriptors_of, descriptors_shown, descriptors_in};

// How many descriptors a body has: each is three octets, and a branch 0 ends them.
fn count_descriptors(body: &[u8]) -> usize
    ensures { result ≡ length (descriptors_in body.now) }
{
    let (triples, _) = body.as_chunks::<3>();
    let mut count = 0;
    for &[branch, _, _] in triples {
        if branch == 0 {
            return count;
        }
        count += 1;
    }
    count
}

// Stores as many descriptors as a body has.
fn store_descriptors(body: &[u8], count: usize, descriptors: &mut [u32])
    requires { (count ≡ length (descriptors_in body.now)) × (count ≤ length descriptors.old) }
    ensures { descriptors.new ≡ sets descriptors.old 0 (descriptors_in body.now) }
{
    let (triples, _) = body.as_chunks::<3>();
    for i in 0..count {
        let &[a, b, c] = &triples[i];
        descriptors[i] = u32::from_be_bytes([0, a, b, c]);
    }
}

// The descriptors of a frame's body, where the slice has room for all of them.
fn show_descriptors(body: &[u8], descriptors: &mut [u32]) -> u64
    requires { length body.now ≤ longest_frame }
    ensures { Showing (descriptors_of (length descriptors.old) (request (descriptors_in body.now))) descriptors.old result descriptors.new }
{
    let count = count_descriptors(body);
    if descriptors.len() < count {
        return 9;
    }
    store_descriptors(body, count, descriptors);
    (count as u64) * 256
}

// Reads a Variable Request. Its descriptors are stored in order, each as one number, the branch above the leaf's sixteen bits. The
// result is a refusal's number, or their count times 256: 10 for a frame of another code, 9 for a slice with fewer numbers than the
// frame has descriptors.
pub fn read_descriptors(frame: &[u8], descriptors: &mut [u32]) -> u64
    ensures { Showing (descriptors_shown frame.now (length descriptors.old)) descriptors.old result descriptors.new }
{
    match frame::judgement_of(frame) {
        Err(refusal) => u64::from(refusal.number()),
        Ok(_) => {
            if frame[17] != 2 {
                return 10;
            }
            show_descriptors(frame::body(frame), descriptors)
        }
    }
}
