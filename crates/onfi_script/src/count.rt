//! Counts that are in the range of their rows.
ghost use Rattle.std.specs.Prelude.{◌≡◌, ◌≤◌};

use std::marker::Model;

/// A count, 1 to `MOST`.
#[derive(Drop)]
pub struct Count<const MOST: u16>(u16);

impl<const MOST: u16> Model for Count<MOST> {
    ghost use Rattle.std.specs.Prelude.{◌≤◌, ℕ};

    ghost Value = { ℕ };

    ghost view = { λ n. n.0 };

    ghost invariant = { λ n. (1 ≤ n.0) × (n.0 ≤ MOST) };
}

impl<const MOST: u16> Count<MOST> {
    /// That number.
    pub(crate) fn of(number: u16) -> Count<MOST>
        requires some { 1 ≤ number }
        requires few { number ≤ MOST }
        ensures { result ≡ number }
    {
        Count(number)
    }

    /// Its number.
    pub fn get(&self) -> u16
        ensures value { result ≡ self.now }
        ensures some { 1 ≤ result }
        ensures few { result ≤ MOST }
    {
        self.0
    }
}
