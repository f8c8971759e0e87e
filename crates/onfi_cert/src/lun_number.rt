//! The number of a LUN.
ghost use Rattle.std.specs.Prelude.{◌≡◌, ◌<◌, ◌↔◌, ℕ, IfSome, IsSome};

use std::marker::Model;

/// The number of a LUN, 0 to 7. Contracts see the number itself.
#[derive(Clone, Copy, Debug, PartialEq, Eq)]
pub struct LunNumber(u8);

impl Model for LunNumber {
    ghost use Rattle.std.specs.Prelude.{◌<◌, ℕ};
    ghost use Rattle.std.specs.Coded.{coded_ℕ};

    ghost Value = { ℕ };

    ghost coded = { coded_ℕ };

    ghost view = { λ l. l.0 };

    ghost invariant = { λ l. l.0 < 8 };

    ghost inverse = { λ n. record { 0 = n } };
}

impl LunNumber {
    /// The LUN of this number, or None where it is over 7.
    pub fn new(number: u8) -> Option<LunNumber>
        ensures in_range { IsSome result ↔ (number < 8) }
        ensures value { IfSome result (λ lun. lun ≡ number) }
    {
        if number >= 8 {
            return None;
        }
        Some(LunNumber::of(number))
    }

    /// The LUN of a number that is known to be below 8.
    pub fn of(number: u8) -> LunNumber
        requires { number < 8 }
        ensures { result ≡ number }
    {
        LunNumber(number)
    }

    /// Its number.
    pub fn get(self) -> u8
        ensures value { result ≡ self }
        ensures below { result < 8 }
    {
        self.0
    }
}
