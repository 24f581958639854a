// Settings that the paper takes.
ghost use Rattle.std.specs.Prelude.{◌≡◌};
ghost use Rattle.link_peer.specs.Ranges.{sound};

use crate::Settings;

impl Settings {
    // Whether every value is in its range; other settings yield no end.
    #[tactic(auto, unfolding(crate::specs::Ranges::sound))]
    pub fn is_sound(self) -> bool
        ensures { result ≡ sound self }
    {
        self.configuration < 32
            && (64..=1518).contains(&self.size)
            && self.oui < 0x1000000
            && self.source < 0x1000000000000
            && self.required < 32
            && self.required % 2 == 0
    }
}
