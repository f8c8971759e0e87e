//! How soon a phase goes.

ghost use Rattle.std.specs.Prelude.{◌≡◌};
ghost use Rattle.onfi_timing.specs.declared.operation.Operation.{Operation as AnyOperation};
ghost use Rattle.onfi_steady.specs.Order.{is_less};
ghost use Rattle.onfi_steady.specs.Ranks.{numbers_of, post_rank, start_rank};

use onfi_timing::Operation;

/// How soon a phase goes, compared number by number.
#[derive(Clone, Copy)]
pub struct Turn {
    /// When it may start, in ns.
    pub start: u64,
    /// The number of its group's oldest request.
    pub oldest: u64,
    /// By how many requests the group that it begins is smaller than the largest.
    pub smaller: usize,
    /// Where it stands by what it does.
    pub rank: u8,
    /// Whether the bus is kept from it.
    pub kept: bool,
}

impl Turn {
    /// Whether it goes before another.
    pub fn is_before(&self, other: &Turn) -> bool
        ensures { result ≡ is_less (numbers_of self.now) (numbers_of other.now) }
    {
        if self.kept != other.kept {
            return other.kept;
        }
        if self.start != other.start {
            return self.start < other.start;
        }
        if self.rank != other.rank {
            return self.rank < other.rank;
        }
        if self.smaller != other.smaller {
            return self.smaller < other.smaller;
        }
        self.oldest < other.oldest
    }
}

/// Where a phase stands by what it does, of what begins.
pub fn start_rank(operation: Operation) -> u8
    ensures { result ≡ start_rank operation }
{
    match operation {
        Operation::Read => 2,
        Operation::Erase => 3,
        Operation::Program => 5,
    }
}

/// .. a data output or a status
pub fn post_rank(operation: Operation) -> u8
    ensures { result ≡ post_rank operation }
{
    match operation {
        Operation::Read => 4,
        Operation::Program | Operation::Erase => 1,
    }
}
