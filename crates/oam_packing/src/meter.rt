// The meter of an end.
ghost use Rattle.std.specs.Prelude.{true};
ghost use Rattle.oam_packing.specs.Meter.{meter_octets, meter_from};

use crate::parts::Part;
use link_limit::Meter;

pub(crate) const LENGTH: usize = 7;

// Of a meter that is bounded nothing is cut off, and any octets are those of some meter.
impl Part<LENGTH> for Meter {
    ghost octets = { meter_octets };

    ghost from = { meter_from };

    ghost fitting = { λ _. true };

    #[tactic(auto, unfolding(crate::specs::Meter::meter_octets))]
    fn put(self, out: &mut [u8], at: usize) {
        let [.., ticks] = self.ticks().to_be_bytes();
        let [_, _, a, b, c, d, e, f] = self.intervals().to_be_bytes();
        octets::put_octets(out, at, &[ticks, a, b, c, d, e, f]);
    }

    #[tactic(auto, unfolding(crate::specs::Meter::meter_from))]
    fn from_octets(kept: &[u8; LENGTH]) -> Meter {
        let &[ticks, a, b, c, d, e, f] = kept;
        Meter::of(
            u64::from(ticks),
            u64::from_be_bytes([0, 0, a, b, c, d, e, f]),
        )
    }

    fn are_octets(_kept: &[u8; LENGTH]) -> bool {
        true
    }
}
