//! How far a half is.

ghost use Rattle.std.specs.Prelude.{◌≡◌, ℕ, ◌<◌, ◌↔◌, IsTrue, false, length};
ghost use Rattle.onfi_group.specs.Words.{number};
ghost use Rattle.onfi_core.specs.Steps.{none_left};
ghost use Rattle.onfi_core.specs.View.{WantsItem};
ghost use Rattle.onfi_core.specs.Kept.{is_of_place};

use crate::half::Half;

impl Half {
    /// Whether an item more is of use: while fewer accepted items than the batch are unplanned.
    pub fn wants_item(&self) -> bool
        ensures { IsTrue result ↔ WantsItem self.now.setup self.now.state }
    {
        self.accepted - self.planned < u64::from(self.batch)
    }

    /// Whether a phase is left, stopped or not.
    pub fn has_phase(&self) -> bool
        ensures { IsTrue result ↔ (none_left self.now.state ≡ false) }
    {
        !self.way.is_done()
    }

    /// From when on the bus is free, in ns of the channel's clock.
    pub fn bus_free(&self) -> u64
        ensures { result ≡ self.now.state.now.bus_free }
    {
        self.way.bus_free()
    }

    /// How many items were accepted.
    pub fn accepted_count(&self) -> u64
        ensures { result ≡ length self.now.state.accepted }
    {
        self.accepted
    }

    /// How many replies were posted, to whichever host.
    pub fn posted_count(&self) -> u64
        ensures { result ≡ length self.now.state.posted }
    {
        let (accepted, waiting) = (self.accepted, self.slots.len() as u64);
        accepted - waiting
    }

    /// Whether as many replies were posted as items were accepted: then each item has exactly one.
    pub fn is_answered(&self) -> bool
        ensures count { IsTrue result ↔ (length self.now.state.posted ≡ length self.now.state.accepted) }
        ensures each { IsTrue result → (place : ℕ) → place < length self.now.state.accepted → number (is_of_place place) self.now.state.posted ≡ 1 }
    {
        self.slots.is_empty()
    }
}
