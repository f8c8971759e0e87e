//! How many nodes a better plan may cost.

ghost use Rattle.std.specs.Prelude.{◌≡◌, ◌≤◌, ◌↔◌, IfSome, IsSome};

use std::marker::Model;

/// How many nodes may be opened for a better plan, 0 to 1,048,576; with 0 it stays as it is. Contracts see its number.
#[derive(Clone, Copy, Debug, PartialEq, Eq)]
pub struct Nodes(u32);

impl Model for Nodes {
    ghost use Rattle.std.specs.Prelude.{◌≤◌, ℕ};
    ghost use Rattle.std.specs.Coded.{coded_ℕ};

    ghost Value = { ℕ };

    ghost coded = { coded_ℕ };

    ghost view = { λ n. n.0 };

    ghost invariant = { λ n. n.0 ≤ 1048576 };

    ghost inverse = { λ n. record { 0 = n } };
}

impl Nodes {
    /// The greatest number.
    pub const MOST: u32 = 1_048_576;

    /// The number where none is named.
    pub const USUAL: u32 = 1_500;

    /// That number of nodes, or None where it is above 1,048,576.
    pub fn of(number: u32) -> Option<Nodes>
        ensures in_range { IsSome result ↔ (number ≤ 1048576) }
        ensures value { IfSome result (λ nodes. nodes ≡ number) }
    {
        if number > Nodes::MOST {
            return None;
        }
        Some(Nodes(number))
    }

    /// As many as are opened where no number is named: 1,500.
    pub fn usual() -> Nodes
        ensures { result ≡ 1500 }
    {
        Nodes(Nodes::USUAL)
    }

    /// Its number.
    pub fn get(self) -> u32
        ensures value { result ≡ self }
        ensures few { result ≤ 1048576 }
    {
        self.0
    }
}

impl Default for Nodes {
    ghost use Rattle.std.specs.Prelude.{◌≡◌};

    ghost is_default = { λ n. n ≡ 1500 };

    fn default() -> Nodes {
        Nodes::usual()
    }
}
