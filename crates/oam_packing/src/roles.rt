// The role of an end.
ghost use Rattle.oam_packing.specs.Roles.{role_octets, role_from, is_role};

use crate::parts::Part;
use link_loopback::Role;

pub(crate) const LENGTH: usize = 1;

impl Part<LENGTH> for Role {
    ghost octets = { role_octets };

    ghost from = { role_from };

    ghost fitting = { is_role };

    #[tactic(auto, unfolding(crate::specs::Roles::role_octets))]
    fn put(self, out: &mut [u8], at: usize) {
        octets::put_octets(out, at, &[self.number()]);
    }

    #[tactic(auto, unfolding(crate::specs::Roles::role_from))]
    fn from_octets(kept: &[u8; LENGTH]) -> Role {
        Role::from(kept[0])
    }

    fn are_octets(kept: &[u8; LENGTH]) -> bool {
        kept[0] <= 4
    }
}
