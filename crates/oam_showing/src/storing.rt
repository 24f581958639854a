// Numbers stored in a lent slice.
ghost use Rattle.oam_showing.specs.Showing.{shows, Showing};

// Stores numbers from the start of a lent slice, as far as it has room for them, and gives the answer back.
pub fn show(lent: &mut [u64], answer: u64, numbers: &[u64]) -> u64
    ensures { Showing (shows answer numbers.now) lent.old result lent.new }
{
    for i in 0..numbers.len().min(lent.len()) {
        lent[i] = numbers[i];
    }
    answer
}
