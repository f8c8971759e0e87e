//! How many nodes a search may open.

ghost use Rattle.std.specs.Prelude.{◌≡◌, ◌≤◌, ◌↔◌, IfSome, IsSome};

use std::marker::Model;

/// How many nodes a search may open, 1 to 1,048,576. Contracts see its number.
#[derive(Clone, Copy, Debug, PartialEq, Eq)]
pub struct Limit(u32);

impl Model for Limit {
    ghost use Rattle.std.specs.Prelude.{◌≤◌, ℕ};
    ghost use Rattle.std.specs.Coded.{coded_ℕ};

    ghost Value = { ℕ };

    ghost coded = { coded_ℕ };

    ghost view = { λ l. l.0 };

    ghost invariant = { λ l. (1 ≤ l.0) × (l.0 ≤ 1048576) };

    ghost inverse = { λ n. record { 0 = n } };
}

impl Limit {
    /// The greatest number of a limit.
    pub const MOST: u32 = 1_048_576;

    /// The limit of this number, or None where it is not 1 to 1,048,576.
    pub fn of(number: u32) -> Option<Limit>
        ensures in_range { IsSome result ↔ ((1 ≤ number) × (number ≤ 1048576)) }
        ensures value { IfSome result (λ limit. limit ≡ number) }
    {
        if number < 1 || number > Limit::MOST {
            return None;
        }
        Some(Limit(number))
    }

    /// Its number.
    pub fn get(self) -> u32
        ensures value { result ≡ self }
        ensures some { 1 ≤ result }
        ensures few { result ≤ 1048576 }
    {
        self.0
    }
}
