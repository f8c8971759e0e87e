ghost use Rattle.std.specs.Prelude.{◌≡◌, ℕ, ◌+◌, ◌^◌, ◌<◌, ◌≤◌, [], ◌∷◌, ◌++◌, length};
ghost use Rattle.std.specs.List.{AllByRecursion as Each};

use arrayvec::ArrayVec;
use std::marker::Model;

/// The starts of phases that follow each other, at most eight, in ns of the channel's clock, each below 2^63.
#[derive(Drop)]
pub struct Starts {
    of: ArrayVec<u64, 8>,
}

impl Model for Starts {
    ghost use Rattle.std.specs.Prelude.{ℕ, List, ◌^◌, ◌<◌, ◌≤◌, length};
    ghost use Rattle.std.specs.List.{AllByRecursion as Each};

    ghost Value = { List ℕ };

    ghost view = { λ s. s.of.items };

    ghost invariant = { λ s. Each (λ t. t < 2 ^ 63) s.of.items × (length s.of.items ≤ 8) };
}

impl Starts {
    /// No start yet.
    pub fn new() -> Starts
        ensures { result ≡ [] }
    {
        Starts {
            of: ArrayVec::new(),
        }
    }

    /// The same starts once more.
    pub fn copy(&self) -> Starts
        ensures { result ≡ self.now }
    {
        Starts {
            of: ArrayVec::try_from(self.as_slice()).unwrap(),
        }
    }

    /// Puts a start, in ns, after the others.
    pub fn push(&mut self, start: u64)
        requires room { length self.old < 8 }
        requires start { start < 2 ^ 63 }
        ensures { self.new ≡ self.old ++ start ∷ [] }
    {
        self.of.push(start);
    }

    /// The starts in order.
    pub fn as_slice(&self) -> &[u64]
        ensures value { result.now ≡ self.now }
        ensures small { Each (λ t. t < 2 ^ 63) self.now }
        ensures few { length self.now ≤ 8 }
    {
        self.of.as_slice()
    }
}

impl Default for Starts {
    ghost is_default = { λ s. s ≡ [] };

    fn default() -> Starts {
        Starts::new()
    }
}
