ghost use Rattle.std.specs.Prelude.{◌≡◌, ℕ, ◌+◌};
ghost use Rattle.std.specs.Borrow.{ftrue};

use std::marker::Model;

/// A count without a greatest value, for contracts alone: it takes no memory.
#[derive(Debug, Drop)]
pub struct Total {
    pub ghost count: { ℕ },
}

impl Model for Total {
    ghost also_owns = { λ _. ftrue };
}

// It owns nothing.
unsafe impl Send for Total {}

impl Total {
    /// The count that the caller's proof picks, from the value that it shows.
    fn of<T>(_from: &T) -> Total
        ghost count: { ℕ }
        ensures { result.count ≡ count }
    {
        Total {}
    }

    /// Nothing counted.
    pub fn none() -> Total
        ensures { result.count ≡ 0 }
    {
        Total::of(&())
    }

    /// One more.
    pub fn next(&self) -> Total
        ensures { result.count ≡ self.now.count + 1 }
    {
        Total::of(self)
    }
}
