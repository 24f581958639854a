// Octets that are text already.
ghost use Rattle.text.specs.Put.{Put};

// The words, where there is room for all of them. (That `at` lies within the output is tested by itself, and not by `room_from`: the
// compiler then knows it, and stores a short text at once, where it would test and store octet by octet.)
pub fn put_words(out: &mut [u8], at: usize, words: &[u8]) -> usize
    ensures { Put words.now out.old at result out.new }
{
    if out.len() < at || out.len() - at < words.len() {
        return at;
    }
    octets::put_octets(out, at, words);
    at + words.len()
}
