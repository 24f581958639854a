// An Information TLV that a caller lends as numbers: its seven fields in order, or none.
ghost use Rattle.std.specs.Prelude.{◌≡◌, true, ◌≤◌, length};
ghost use Rattle.octets.specs.Octets.{fit};
ghost use Rattle.frame_body.specs.Information.{information_widths, information_of};
ghost use Rattle.oam.specs.Lending.{lends, held_from};

use frame_body::{INFORMATION_WIDTHS, Information};

// Whether some numbers lend an Information TLV or none: seven, each within its field's width, or no number.
#[tactic(auto, unfolding(crate::specs::Lending::lends))]
pub(crate) fn lends(numbers: &[u64]) -> bool
    ensures { result ≡ lends numbers.now }
{
    if numbers.len() == 0 {
        return true;
    }
    if numbers.len() != 7 {
        return false;
    }
    octets::all_fit(&INFORMATION_WIDTHS, numbers)
}

// The TLV of seven numbers.
fn information_of(numbers: &[u64]) -> Information
    requires { (7 ≤ length numbers.now) × (fit information_widths numbers.now ≡ true) }
    ensures { result ≡ information_of numbers.now }
{
    Information {
        version: numbers[0] as u8,
        revision: numbers[1] as u16,
        state: numbers[2] as u8,
        configuration: numbers[3] as u8,
        oampdu: numbers[4] as u16,
        oui: numbers[5] as u32,
        vendor: numbers[6] as u32,
    }
}

// The TLV that some numbers lend, if they lend one.
pub(crate) fn held_from(numbers: &[u64]) -> Option<Information>
    requires { lends numbers.now ≡ true }
    ensures { result ≡ held_from numbers.now }
{
    if numbers.len() == 0 {
        return None;
    }
    Some(information_of(numbers))
}
