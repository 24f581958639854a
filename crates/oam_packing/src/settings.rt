// The settings of an end.
ghost use Rattle.std.specs.Prelude.{true};
ghost use Rattle.oam_packing.specs.Settings.{settings_octets, settings_from};

use crate::parts::Part;
use link_peer::Settings;

pub(crate) const LENGTH: usize = 17;

// Any octets are those of some settings.
impl Part<LENGTH> for Settings {
    ghost octets = { settings_octets };

    ghost from = { settings_from };

    ghost fitting = { λ _. true };

    #[tactic(auto, unfolding(crate::specs::Settings::settings_octets))]
    fn put(self, out: &mut [u8], at: usize) {
        let [a, b] = self.size.to_be_bytes();
        let [_, c, d, e] = self.oui.to_be_bytes();
        let [f, g, h, i] = self.vendor.to_be_bytes();
        let [_, _, j, k, l, m, n, o] = self.source.to_be_bytes();
        octets::put_octets(
            out,
            at,
            &[
                self.configuration,
                a,
                b,
                c,
                d,
                e,
                f,
                g,
                h,
                i,
                j,
                k,
                l,
                m,
                n,
                o,
                self.required,
            ],
        );
    }

    #[tactic(auto, unfolding(crate::specs::Settings::settings_from))]
    fn from_octets(kept: &[u8; LENGTH]) -> Settings {
        let &[
            configuration,
            a,
            b,
            c,
            d,
            e,
            f,
            g,
            h,
            i,
            j,
            k,
            l,
            m,
            n,
            o,
            required,
        ] = kept;
        Settings {
            configuration,
            size: u16::from_be_bytes([a, b]),
            oui: u32::from_be_bytes([0, c, d, e]),
            vendor: u32::from_be_bytes([f, g, h, i]),
            source: u64::from_be_bytes([0, 0, j, k, l, m, n, o]),
            required,
        }
    }

    fn are_octets(_kept: &[u8; LENGTH]) -> bool {
        true
    }
}
