// What tells why nothing was written, by its number.
ghost use Rattle.std.specs.Prelude.{◌≡◌, ℕ};
ghost use Rattle.octets.specs.Refusals.{number};

use octets::Refusal;

// What a writer may answer in place of a length: a refusal, or a number as it stands.
pub trait Answer: Copy {
    ghost answer: { Self → ℕ };

    // The number that is shown for it.
    fn answer(self) -> u8
        ensures { result ≡ answer self };
}

impl Answer for Refusal {
    ghost answer = { number };

    fn answer(self) -> u8 {
        Refusal::number(self)
    }
}

impl Answer for u8 {
    ghost answer = { λ n. n };

    fn answer(self) -> u8 {
        self
    }
}
