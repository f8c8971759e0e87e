//! A half that plans nothing: its dispatcher.

ghost use Rattle.std.specs.Prelude.{◌≡◌, ◌<◌, ◌≤◌, ◌^◌, ◌↔◌, ℕ, [], Some, length, max, slice_get, true, false, IfOk, IfNone, IfSome, IsOk, OnErr};
ghost use Rattle.std.specs.List.{AllByRecursion as Each};
ghost use Rattle.onfi_flight.specs.Flight.{ready_of};
ghost use Rattle.onfi_problem.specs.Problem.{IsProblem};
ghost use Rattle.onfi_problem.specs.Moves.{free_from};
ghost use Rattle.onfi_steady.specs.Next.{IsNextPhase};
ghost use Rattle.onfi_core.specs.Dues.{IsNextDue};
ghost use Rattle.onfi_core.specs.Kept.{IsInTime};
ghost use Rattle.onfi_core.specs.Steps.{is_in_array, none_left_by};
ghost use Rattle.onfi_core.specs.Ways.{AreBooks, IsOpened, books_way, flight_in, way_after, way_ready, way_waited, way_with};

use crate::known::Known;
use onfi_flight::{Due, TooLate};
use onfi_group::{Group, Rules};
use onfi_request::Want;
use onfi_steady::{Dispatcher, NextPhase};
use onfi_timing::Timing;
use std::alloc::{AllocError, Global};

/// All moments of a channel are before this one, in ns.
const END: u64 = 1 << 62;

/// A channel that plans nothing.
#[derive(Drop)]
pub struct BooksWay {
    pub alloc: Global,
    pub timing: Timing,
    pub dispatcher: Box<Dispatcher>,
    pub known: Known,
}

impl BooksWay {
    /// Nothing runs or waits, and bus and LUNs are free from 0 on.
    ///
    /// # Errors
    /// Where memory was refused.
    pub(crate) fn open(
        alloc: Global,
        timing: &Timing,
        rules: Rules,
        luns: u8,
    ) -> Result<BooksWay, AllocError>
        requires some { 1 ≤ luns }
        requires few { luns ≤ 8 }
        ensures books { IfOk result AreBooks }
        ensures opened { IfOk result (IsOpened timing.now rules luns) }
    {
        let dispatcher = Dispatcher::new(timing, rules, luns);
        match Box::new(alloc, dispatcher) {
            Ok(dispatcher) => Ok(BooksWay {
                alloc,
                timing: *timing,
                dispatcher,
                known: Known::new(&rules),
            }),
            Err(_) => Err(AllocError),
        }
    }

    /// From when on the bus is free, in ns.
    pub(crate) fn bus_free(&self) -> u64
        ensures { result ≡ (books_way self.now).now.bus_free }
    {
        self.dispatcher.bus_free()
    }

    /// From when on that LUN is free, or its next phase may start, in ns.
    pub(crate) fn free_from(&self, lun: u8) -> u64
        requires { lun < length (books_way self.now).now.luns }
        ensures { result ≡ free_from (slice_get (books_way self.now).now.luns lun) }
    {
        self.dispatcher.free_from(lun)
    }

    /// Whether the array of that LUN works.
    pub(crate) fn is_in_array(&self, lun: u8) -> bool
        requires { lun < length (books_way self.now).now.luns }
        ensures { result ≡ is_in_array (slice_get (books_way self.now).now.luns lun) }
    {
        match self.dispatcher.going(self.alloc, lun) {
            Some((group, next)) => usize::from(next) == group.len(),
            None => false,
        }
    }

    /// Whether nothing runs and nothing waits.
    pub(crate) fn is_idle(&self) -> bool
        requires { AreBooks self.now }
        ensures { result ≡ none_left_by (books_way self.now).books (books_way self.now).now (books_way self.now).left }
    {
        self.dispatcher.look(0).is_none()
    }

    /// The phase that is next; none where nothing runs and nothing waits.
    pub(crate) fn due(&self) -> Option<Due>
        requires books { AreBooks self.now }
        requires problem { IsProblem (books_way self.now).now }
        requires in_time { IsInTime (books_way self.now).now }
        ensures due { IfSome result (IsNextDue self.now.known.books (books_way self.now).now) }
        ensures some { IfSome result (λ _. none_left_by (books_way self.now).books (books_way self.now).now (books_way self.now).left ≡ false) }
        ensures none { IfNone result (none_left_by (books_way self.now).books (books_way self.now).now (books_way self.now).left ≡ true) }
    {
        match self.dispatcher.look(0) {
            Some(phase) => Some(self.due_of(&phase)),
            None => None,
        }
    }

    // That phase, with its group.
    fn due_of(&self, phase: &NextPhase) -> Due
        requires books { AreBooks self.now }
        requires problem { IsProblem (books_way self.now).now }
        requires in_time { IsInTime (books_way self.now).now }
        requires next { IsNextPhase self.now.known.books (books_way self.now).now phase.now }
        ensures { IsNextDue self.now.known.books (books_way self.now).now result }
    {
        let members = phase.members.as_slice();
        if members.is_empty() {
            return self.going_due(phase);
        }
        Due {
            start: phase.start,
            group: Group::of(self.alloc, members),
            phase: 0,
            lun: phase.lun,
            place: Some(0),
        }
    }

    // The next phase of what the LUN runs.
    fn going_due(&self, phase: &NextPhase) -> Due
        requires books { AreBooks self.now }
        requires problem { IsProblem (books_way self.now).now }
        requires in_time { IsInTime (books_way self.now).now }
        requires next { IsNextPhase self.now.known.books (books_way self.now).now phase.now }
        requires none { phase.now.members.items ≡ [] }
        ensures { IsNextDue self.now.known.books (books_way self.now).now result }
    {
        let Some((group, next)) = self.dispatcher.going(self.alloc, phase.lun) else {
            unreachable!();
        };
        Due {
            start: phase.start,
            group,
            phase: next,
            lun: phase.lun,
            place: None,
        }
    }

    /// The due phase ran at its start.
    pub(crate) fn done(&mut self, due: &Due)
        requires books { AreBooks self.old }
        requires problem { IsProblem (books_way self.old).now }
        requires due { IsNextDue self.old.known.books (books_way self.old).now due.now }
        ensures books { AreBooks self.new }
        ensures after { books_way self.new ≡ way_after due.now (books_way self.old) }
    {
        let _phase = self.dispatcher.next(0);
        match self.dispatcher.ran(due.start) {
            Ok(()) => self.known = self.known.with_run(due),
            Err(_) => unreachable!(),
        }
    }

    /// A request more waits.
    pub(crate) fn accept(&mut self, want: &Want)
        requires books { AreBooks self.old }
        requires plane { want.now.plane ≤ 3 }
        requires lun { want.now.lun < length (books_way self.old).now.luns }
        requires room { length (books_way self.old).now.wants < 64 }
        requires next { Each (λ w. w.id < want.now.id) (books_way self.old).now.wants }
        ensures books { AreBooks self.new }
        ensures after { books_way self.new ≡ way_with want.now (books_way self.old) }
    {
        match self.dispatcher.accept(*want) {
            Ok(()) => self.known = self.known.with_accepted(want),
            Err(_) => unreachable!(),
        }
    }

    /// The bus was idle until that moment, in ns.
    ///
    /// # Errors
    /// Where the moment is at 2^62 ns or later; then nothing changes.
    pub(crate) fn wait(&mut self, moment: u64) -> Result<u64, TooLate>
        requires books { AreBooks self.old }
        ensures books { AreBooks self.new }
        ensures waited { IfOk result (λ bus_free. (bus_free ≡ max (books_way self.old).now.bus_free moment) × (books_way self.new ≡ way_waited moment (books_way self.old))) }
        ensures in_time { IsOk result ↔ (moment < 2 ^ 62) }
        ensures unchanged { OnErr result (self.new ≡ self.old) }
    {
        if moment >= END {
            return Err(TooLate);
        }
        self.dispatcher.wait(moment);
        Ok(self.dispatcher.bus_free())
    }

    /// The array of that LUN was done at that moment, in ns.
    pub(crate) fn ready(&mut self, lun: u8, moment: u64) -> u64
        requires books { AreBooks self.old }
        requires there { lun < length (books_way self.old).now.luns }
        requires in_array { is_in_array (slice_get (books_way self.old).now.luns lun) ≡ true }
        ensures books { AreBooks self.new }
        ensures ready { books_way self.new ≡ way_ready lun moment (books_way self.old) }
        ensures from { result ≡ ready_of lun moment (flight_in (books_way self.old)) }
    {
        let before = self.dispatcher.free_from(lun);
        match self.dispatcher.ready(lun, moment) {
            Ok(()) => {}
            Err(_) => unreachable!(),
        }
        before.min(moment)
    }
}
