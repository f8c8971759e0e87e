//! What a phase that ran leaves.

ghost use Rattle.std.specs.Prelude.{◌≡◌, ℕ, ◌+◌, ◌<◌, ◌≤◌, ◌^◌, ◌↔◌, drop, length, Some, IfOk, IsOk, OnErr, remove, slice_set};
ghost use Rattle.onfi_problem.specs.Moves.{placed};
ghost use Rattle.onfi_flight.specs.Flight.{IsDue, after_due, after_late, groups_left, latest_late, left_behind, move_of, starts_of, wants_behind};

use crate::due::{Due, lun_after, skip_first, wants_without};
use crate::flight::Flight;
use crate::flight::passing::{END, TooLate};
use crate::lag::lag_of;
use crate::later::delay_schedule;
use arrayvec::ArrayVec;
use onfi_group::phase_length;
use onfi_request::Want;
use onfi_schedule::{Schedule, Starts};
use std::alloc::Global;

impl Flight {
    /// The due phase ran as planned.
    pub fn done(&mut self, due: &Due)
        requires { IsDue self.old due.now }
        ensures { self.new ≡ after_due self.old due.now }
    {
        self.run(due, due.start);
    }

    /// The due phase ran from then on, at or after its start: what is left starts later by as much. It stays legal.
    ///
    /// # Errors
    /// Where a start would be at 2^62 ns or later; then nothing changes.
    pub fn run_late(&mut self, alloc: Global, due: &Due, started: u64) -> Result<(), TooLate>
        requires due { IsDue self.old due.now }
        requires late { due.now.start ≤ started }
        ensures ran { IfOk result (λ _. self.new ≡ after_late self.old due.now started) }
        ensures in_time { IsOk result ↔ (latest_late self.old due.now started < 2 ^ 62) }
        ensures unchanged { OnErr result (self.new ≡ self.old) }
    {
        let by = started - due.start;
        let lag = lag_of(0, self.left.rest(), self.left.groups());
        if started.max(lag.latest.saturating_add(by)) >= END {
            return Err(TooLate);
        }
        self.run(due, started);
        self.left = delay_schedule(alloc, by, &self.left);
        Ok(())
    }

    // The due phase runs from then on.
    fn run(&mut self, due: &Due, started: u64)
        requires due { IsDue self.old due.now }
        requires time { started < 2 ^ 63 }
        ensures { self.new ≡ record { now = placed self.old.now (move_of due.now) started; left = left_behind self.old.left due.now } }
    {
        let members = due.group.members();
        let ended = started + phase_length(&self.timing, members, usize::from(due.phase));
        let lun = usize::from(due.lun);
        let rest = self.rest_after(due);
        self.wants = self.wants_after(due);
        self.luns
            .set(lun, lun_after(&self.timing, &due.group, due.phase, ended));
        self.bus_free = ended;
        leave(&mut self.left, lun, rest, due.place);
    }

    // The starts that are left of the group.
    fn rest_after(&self, due: &Due) -> Starts
        requires { IsDue self.now due.now }
        ensures { result ≡ drop 1 (starts_of self.now.left due.now.lun due.now.place) }
    {
        match due.place {
            Some(at) => skip_first(self.left.groups()[at].starts()),
            None => skip_first(&self.left.rest()[usize::from(due.lun)]),
        }
    }

    // The wants that are left: those of a group that begins leave.
    fn wants_after(&self, due: &Due) -> ArrayVec<Want, 8>
        ensures { result.items ≡ wants_behind due.now.place due.now.group self.now.now.wants }
    {
        match due.place {
            Some(_) => wants_without(&due.group, self.wants()),
            None => ArrayVec::try_from(self.wants()).unwrap(),
        }
    }
}

// These starts are left on the LUN, and a group that begins leaves the others.
fn leave(left: &mut Schedule, lun: usize, rest: Starts, place: Option<usize>)
    requires lun { lun < length left.old.rest }
    requires place { (at : ℕ) → place ≡ Some at → at < length left.old.groups }
    ensures { left.new ≡ record { rest = slice_set left.old.rest lun rest; groups = groups_left place left.old.groups } }
{
    left.set_rest(lun, rest);
    if let Some(at) = place {
        left.remove_group(at);
    }
}
