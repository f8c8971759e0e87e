ghost use Rattle.std.specs.Prelude.{◌≡◌, ◌+◌, ◌==◌};

use crate::total::Total;
use std::marker::Model;

/// How many programs and erases a block was asked for; contracts see it as that number, which has no greatest value.
///
/// A fault's number is below 2^32, so a count that stays at the greatest `u64` distinguishes all faults.
#[derive(Debug, Drop)]
pub struct Changes {
    reached: u64,
    total: Total,
}

impl Model for Changes {
    ghost use Rattle.std.specs.Prelude.{◌≡◌, ℕ, ◌-◌, ◌^◌, min};

    ghost Value = { ℕ };

    ghost view = { λ c. c.total.count };

    ghost invariant = { λ c. c.reached ≡ min c.total.count (2 ^ 64 - 1) };
}

impl Changes {
    /// No program or erase yet.
    pub fn none() -> Changes
        ensures { result ≡ 0 }
    {
        Changes {
            reached: 0,
            total: Total::none(),
        }
    }

    /// Whether the next program or erase has this number.
    pub fn is(&self, number: u32) -> bool
        ensures { result ≡ (number == self.now) }
    {
        u64::from(number) == self.reached
    }

    /// One more.
    pub fn step(&mut self)
        ensures { self.new ≡ self.old + 1 }
    {
        self.reached = self.reached.saturating_add(1);
        self.total = self.total.next();
    }
}
