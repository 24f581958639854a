// The link of an end.
ghost use Rattle.oam_packing.specs.Link.{link_octets, link_from, is_link};

use crate::parts::Part;
use link_end::Link;

pub(crate) const LENGTH: usize = 2;

impl Part<LENGTH> for Link {
    ghost octets = { link_octets };

    ghost from = { link_from };

    ghost fitting = { is_link };

    #[tactic(auto, unfolding(crate::specs::Link::link_octets))]
    fn put(self, out: &mut [u8], at: usize) {
        octets::put_octets(out, at, &[u8::from(self.up), self.lost]);
    }

    #[tactic(auto, unfolding(crate::specs::Link::link_from))]
    fn from_octets(kept: &[u8; LENGTH]) -> Link {
        let &[up, lost] = kept;
        Link { up: up == 1, lost }
    }

    fn are_octets(kept: &[u8; LENGTH]) -> bool {
        kept[0] <= 1
    }
}
