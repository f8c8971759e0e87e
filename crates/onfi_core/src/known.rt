ghost use Rattle.std.specs.Prelude.{◌≡◌, [], None};
ghost use Rattle.std.specs.Borrow.{ftrue};
ghost use Rattle.onfi_flight.specs.Flight.{move_of};
ghost use Rattle.onfi_steady.specs.Waiting.{Books, accepted};
ghost use Rattle.onfi_core.specs.Steps.{moved};

use onfi_flight::Due;
use onfi_group::Rules;
use onfi_request::Want;
use std::marker::Model;

/// The books of a half that goes by the next phase, for contracts alone: they take no memory. A dispatcher keeps what waits by
/// LUN; this is the order of all.
#[derive(Drop)]
pub struct Known {
    pub ghost books: { Books },
}

impl Model for Known {
    ghost also_owns = { λ _. ftrue };
}

// It owns nothing.
unsafe impl Send for Known {}

impl Known {
    /// The books that the caller's proof picks, from the two values that it shows.
    pub fn of<T, U>(_list: &T, _more: &U) -> Known
        ghost books: { Books }
        ensures { result.books ≡ books }
    {
        Known {}
    }

    /// Nothing waits, and no program is known.
    pub fn new(rules: &Rules) -> Known
        ensures { result.books ≡ record { rules = rules.now; waiting = []; newest = None } }
    {
        Known::of(rules, &())
    }

    /// With a request more that waits.
    pub fn with_accepted(&self, want: &Want) -> Known
        ensures { result.books ≡ accepted self.now.books want.now }
    {
        Known::of(self, want)
    }

    /// Once the due phase ran.
    pub fn with_run(&self, due: &Due) -> Known
        ensures { result.books ≡ moved self.now.books (move_of due.now) }
    {
        Known::of(self, due)
    }
}
