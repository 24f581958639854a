// What an end says of itself.
ghost use Rattle.oam_packing.specs.Own.{own_octets, own_from, is_own};

use crate::parts::Part;
use link_end::Own;

pub(crate) const LENGTH: usize = 7;

impl Part<LENGTH> for Own {
    ghost octets = { own_octets };

    ghost from = { own_from };

    ghost fitting = { is_own };

    #[tactic(auto, unfolding(crate::specs::Own::own_octets))]
    fn put(self, out: &mut [u8], at: usize) {
        let [a, b] = self.revision.to_be_bytes();
        let [c, d] = self.number.to_be_bytes();
        octets::put_octets(
            out,
            at,
            &[
                a,
                b,
                c,
                d,
                u8::from(self.gasp),
                u8::from(self.critical),
                u8::from(self.owed),
            ],
        );
    }

    #[tactic(auto, unfolding(crate::specs::Own::own_from))]
    fn from_octets(kept: &[u8; LENGTH]) -> Own {
        let &[a, b, c, d, gasp, critical, owed] = kept;
        Own {
            revision: u16::from_be_bytes([a, b]),
            number: u16::from_be_bytes([c, d]),
            gasp: gasp == 1,
            critical: critical == 1,
            owed: owed == 1,
        }
    }

    fn are_octets(kept: &[u8; LENGTH]) -> bool {
        kept[4] <= 1 && kept[5] <= 1 && kept[6] <= 1
    }
}
