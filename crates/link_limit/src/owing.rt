// What a call leaves behind: the next revision and event number, and whether an Information frame is owed.
ghost use Rattle.std.specs.Prelude.{◌≡◌};
ghost use Rattle.link_limit.specs.Owing.{following, revised, owes};

// "grows by one, 65,535 going to 0"
pub fn following(number: u16) -> u16
    ensures { result ≡ following number }
{
    number.wrapping_add(1)
}

// The revision grows in a call that changes the State octet.
pub fn revised(changed: bool, revision: u16) -> u16
    ensures { result ≡ revised changed revision }
{
    if changed {
        following(revision)
    } else {
        revision
    }
}

// An Information frame is owed where it is allowed, and was owed before, is due, or tells of a change.
pub fn owes(allowed: bool, owed: bool, due: bool, changed: bool) -> bool
    ensures { result ≡ owes allowed owed due changed }
{
    allowed && (owed || due || changed)
}
