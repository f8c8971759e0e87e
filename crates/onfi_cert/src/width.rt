//! How many children a branch has.
ghost use Rattle.std.specs.Prelude.{◌≡◌, ◌≤◌, ◌<◌, ◌↔◌, ℕ, IfSome, IsSome};

use std::marker::Model;

/// How many children a branch has, 1 to 99. Contracts see its number.
#[derive(Clone, Copy, Debug, PartialEq, Eq)]
pub struct Width(u8);

impl Model for Width {
    ghost use Rattle.std.specs.Prelude.{◌≤◌, ℕ};
    ghost use Rattle.std.specs.Coded.{coded_ℕ};

    ghost Value = { ℕ };

    ghost coded = { coded_ℕ };

    ghost view = { λ w. w.0 };

    ghost invariant = { λ w. (1 ≤ w.0) × (w.0 ≤ 99) };

    ghost inverse = { λ n. record { 0 = n } };
}

impl Width {
    /// The width of this number, or None where it is not 1 to 99.
    pub fn new(number: u8) -> Option<Width>
        ensures in_range { IsSome result ↔ ((1 ≤ number) × (number ≤ 99)) }
        ensures value { IfSome result (λ width. width ≡ number) }
    {
        if number < 1 || number > 99 {
            return None;
        }
        Some(Width::of(number))
    }

    /// The width of a number that is known to be 1 to 99.
    pub fn of(number: u8) -> Width
        requires low { 1 ≤ number }
        requires high { number ≤ 99 }
        ensures { result ≡ number }
    {
        Width(number)
    }

    /// Its number.
    pub fn get(self) -> u8
        ensures value { result ≡ self }
        ensures low { 1 ≤ result }
        ensures high { result ≤ 99 }
    {
        self.0
    }
}
