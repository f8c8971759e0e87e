//! The requests that wait.

ghost use Rattle.std.specs.Prelude.{◌≡◌, ◌==◌, ◌<◌, ◌≤◌, [], ◌∷◌, ◌++◌, List, length, position, remove, IfOk, IfErr};
ghost use Rattle.std.specs.List.{AllByRecursion as Each};
ghost use Rattle.onfi_request.specs.declared.want.Want.{Want as AWant};
ghost use Rattle.onfi_group.specs.Words.{Pairs};
ghost use Rattle.onfi_problem.specs.Moves.{without};

use onfi_request::Want;
use std::alloc::{AllocError, Global};
use std::marker::Model;

/// Requests that wait, by rising numbers. What leaves makes room at the front, so that one near the front leaves in few steps.
#[derive(Drop)]
pub(crate) struct Waiting {
    all: Vec<Want>,
    // That many at the front have left.
    gone: usize,
}

impl Model for Waiting {
    ghost use Rattle.std.specs.Prelude.{List, length, drop, ◌≤◌, ◌<◌};
    ghost use Rattle.onfi_group.specs.Words.{Pairs};
    ghost use Rattle.onfi_request.specs.declared.want.Want.{Want as AWant};

    ghost Value = { List AWant };

    ghost view = { λ w. drop w.gone w.all.items };

    ghost invariant = { λ w. (w.gone ≤ length w.all.items) × Pairs (λ a b. a.id < b.id) (drop w.gone w.all.items) };
}

impl Waiting {
    /// Nothing waits.
    pub(crate) fn new(alloc: Global) -> Waiting
        ensures { result ≡ [] }
    {
        Waiting {
            all: Vec::new(alloc),
            gone: 0,
        }
    }

    /// The same requests once more.
    ///
    /// # Errors
    /// Where memory was refused.
    pub(crate) fn copy(&self) -> Result<Waiting, AllocError>
        ensures { IfOk result (λ w. w ≡ self.now) }
    {
        let mut all = Vec::new(self.alloc());
        all.extend_from_slice(self.as_slice())?;
        Ok(Waiting { all, gone: 0 })
    }

    /// The allocator that it takes memory from.
    pub(crate) fn alloc(&self) -> Global {
        *self.all.allocator()
    }

    /// Those that wait.
    pub(crate) fn as_slice(&self) -> &[Want]
        ensures value { result.now ≡ self.now }
        ensures rising { Pairs (λ a b. a.id < b.id) self.now }
    {
        &self.all[self.gone..]
    }

    /// A request more, after all others.
    ///
    /// # Errors
    /// Where memory was refused.
    pub(crate) fn push(&mut self, want: Want) -> Result<(), AllocError>
        requires { Each (λ w. w.id < want.id) self.old }
        ensures pushed { IfOk result (λ _. self.new ≡ self.old ++ want ∷ []) }
        ensures refused { IfErr result (λ _. self.new ≡ self.old) }
    {
        match self.all.push(want) {
            Ok(()) => Ok(()),
            Err(_) => Err(AllocError),
        }
    }

    /// Takes back the last one.
    pub(crate) fn pop(&mut self)
        requires { 1 ≤ length self.old }
        ensures left { (before : List AWant) (want : AWant) → self.old ≡ before ++ want ∷ [] → self.new ≡ before }
        ensures less { (before : List AWant) (want : AWant) → self.old ≡ before ++ want ∷ [] → Each (λ w. w.id < want.id) before }
    {
        let last = self.all.len() - 1;
        self.all.truncate(last);
    }

    /// Leaves those that have another number.
    pub(crate) fn leave(&mut self, number: u64)
        ensures { (want : AWant) → want.id ≡ number → self.new ≡ without (want ∷ []) self.old }
    {
        if let Some(at) = place_of(self.as_slice(), number) {
            self.take_out(at);
            self.clear_gone();
        }
    }

    // Takes out the one at that place; those before it move by one.
    fn take_out(&mut self, at: usize)
        requires { at < length self.old }
        ensures { self.new ≡ remove self.old at }
    {
        let first = self.gone;
        self.all.copy_within(first..first + at, first + 1);
        self.gone += 1;
    }

    // Where nothing waits no room is left at the front.
    fn clear_gone(&mut self)
        ensures { self.new ≡ self.old }
    {
        if self.gone == self.all.len() {
            self.all.clear();
            self.gone = 0;
        }
    }
}

// Where the first request of that number stands.
fn place_of(wants: &[Want], number: u64) -> Option<usize>
    ensures { result ≡ position (λ w. w.id == number) wants.now }
{
    wants.iter().position(|w| w.id == number)
}
