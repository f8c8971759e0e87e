//! How a half goes on: by what is left of its plan, or, where it plans nothing, by its books.

ghost use Rattle.std.specs.Prelude.{◌≡◌, ◌<◌, ◌≤◌, ◌^◌, ◌↔◌, None, Some, length, max, slice_get, IfOk, IfNone, IfSome, IsOk, IsTrue, OnErr, true, false};
ghost use Rattle.std.specs.List.{AllByRecursion as Each};
ghost use Rattle.onfi_problem.specs.Moves.{free_from};
ghost use Rattle.onfi_problem.specs.Problem.{IsProblem};
ghost use Rattle.onfi_flight.specs.Flight.{ready_of};
ghost use Rattle.onfi_core.specs.Dues.{IsDueBy};
ghost use Rattle.onfi_core.specs.Kept.{first_way};
ghost use Rattle.onfi_core.specs.Steps.{is_in_array, latest_by, none_left_by};
ghost use Rattle.onfi_core.specs.Ways.{IsFlown, IsOnTime, flight_in, way_after, way_ready, way_waited, way_with};

mod books;

use crate::setup::{Choice, Setup};
use arrayvec::ArrayVec;
use books::BooksWay;
use onfi_flight::{Due, Flight, Next, TooLate};
use onfi_problem::LunState;
use onfi_request::Want;
use onfi_schedule::Schedule;
use std::alloc::{AllocError, Global};
use std::marker::Model;

/// How a half goes on.
#[derive(Drop)]
pub struct Way {
    by: By,
}

/// By a plan, or by books.
#[derive(Drop)]
pub enum By {
    Plan(Flight),
    Books(BooksWay),
}

impl Model for Way {
    ghost use Rattle.onfi_core.specs.State.{Way as AnyWay};
    ghost use Rattle.onfi_core.specs.Ways.{IsWay, way_in};

    ghost Value = { AnyWay };

    ghost view = { λ w. way_in w.by };

    ghost invariant = { λ w. IsWay w.by };
}

impl Way {
    /// Nothing runs or waits: the bus and all LUNs are free from 0 on.
    ///
    /// # Errors
    /// Where memory was refused.
    pub(crate) fn open(alloc: Global, setup: &Setup) -> Result<Way, AllocError>
        ensures { IfOk result (λ way. way ≡ first_way setup.now) }
    {
        let luns = setup.geometry.lun_count;
        let by = match setup.choice {
            Choice::InOrder => By::Plan(Flight::idle(alloc, setup.timing, setup.rules, 0, luns)),
            Choice::NextPhase => {
                By::Books(BooksWay::open(alloc, &setup.timing, setup.rules, luns)?)
            }
        };
        Ok(Way { by })
    }

    /// Whether it goes by plans.
    pub(crate) fn plans(&self) -> bool
        ensures { IsTrue result ↔ (self.now.books ≡ None) }
    {
        match &self.by {
            By::Plan(_) => true,
            By::Books(_) => false,
        }
    }

    /// What is left of its plan.
    pub(crate) fn flight(&self) -> &Flight
        requires { self.now.books ≡ None }
        ensures { result.now ≡ flight_in self.now }
    {
        match &self.by {
            By::Plan(flight) => flight,
            By::Books(_) => unreachable!(),
        }
    }

    /// From when on the bus is free, in ns of the channel's clock.
    pub(crate) fn bus_free(&self) -> u64
        ensures { result ≡ self.now.now.bus_free }
    {
        match &self.by {
            By::Plan(flight) => flight.bus_free(),
            By::Books(books) => books.bus_free(),
        }
    }

    /// From when on that LUN is free, or its next phase may start, in ns.
    pub(crate) fn free_from(&self, lun: u8) -> u64
        requires { lun < length self.now.now.luns }
        ensures { result ≡ free_from (slice_get self.now.now.luns lun) }
    {
        match &self.by {
            By::Plan(flight) => free_from(&flight.luns()[usize::from(lun)]),
            By::Books(books) => books.free_from(lun),
        }
    }

    /// Whether the array of that LUN works: its group's next phase is the first post.
    pub(crate) fn is_in_array(&self, lun: u8) -> bool
        requires { lun < length self.now.now.luns }
        ensures { result ≡ is_in_array (slice_get self.now.now.luns lun) }
    {
        match &self.by {
            By::Plan(flight) => is_in_array(&flight.luns()[usize::from(lun)]),
            By::Books(books) => books.is_in_array(lun),
        }
    }

    /// Whether no phase is left.
    pub(crate) fn is_done(&self) -> bool
        ensures { IsFlown self.now → result ≡ none_left_by self.now.books self.now.now self.now.left }
    {
        match &self.by {
            By::Plan(flight) => flight.is_done(),
            By::Books(books) => books.is_idle(),
        }
    }

    /// The phase that comes next; none where no phase is left.
    pub(crate) fn due(&self) -> Option<Due>
        requires flown { IsFlown self.now }
        requires problem { IsProblem self.now.now }
        requires on_time { IsOnTime self.now }
        ensures due { IfSome result (IsDueBy self.now.books (flight_in self.now)) }
        ensures some { IfSome result (λ _. none_left_by self.now.books self.now.now self.now.left ≡ false) }
        ensures none { IfNone result (none_left_by self.now.books self.now.now self.now.left ≡ true) }
    {
        match &self.by {
            By::Plan(flight) => match flight.due() {
                Next::Due(due) => Some(due),
                Next::Done => None,
                Next::Illegal => unreachable!(),
            },
            By::Books(books) => books.due(),
        }
    }

    /// The due phase ran at its start.
    pub(crate) fn done(&mut self, due: &Due)
        requires problem { IsProblem self.old.now }
        requires due { IsDueBy self.old.books (flight_in self.old) due.now }
        ensures { self.new ≡ way_after due.now self.old }
    {
        match &mut self.by {
            By::Plan(flight) => flight.done(due),
            By::Books(books) => books.done(due),
        }
    }

    /// A request more is accepted: by its books it waits.
    pub(crate) fn accept(&mut self, want: &Want)
        requires plane { want.now.plane ≤ 3 }
        requires lun { want.now.lun < length self.old.now.luns }
        requires room { length self.old.now.wants < 64 }
        requires next { Each (λ w. w.id < want.now.id) self.old.now.wants }
        ensures { self.new ≡ way_with want.now self.old }
    {
        match &mut self.by {
            By::Plan(_) => {}
            By::Books(books) => books.accept(want),
        }
    }

    /// A plan of these wants is left.
    pub(crate) fn replan(&mut self, wants: ArrayVec<Want, 8>, left: Schedule)
        requires { self.old.books ≡ None }
        ensures { self.new ≡ record { now = record self.old.now { wants = wants.items }; left = left; books = None } }
    {
        match &mut self.by {
            By::Plan(flight) => flight.replan(wants, left),
            By::Books(_) => unreachable!(),
        }
    }

    /// The bus was idle until that moment, in ns: no phase starts sooner. From when on it is free is answered.
    ///
    /// # Errors
    /// Where the moment, or a start of what is left, would be at 2^62 ns or later; then nothing changes.
    pub(crate) fn wait(&mut self, alloc: Global, moment: u64) -> Result<u64, TooLate>
        ensures waited { IfOk result (λ bus_free. (bus_free ≡ max self.old.now.bus_free moment) × (self.new ≡ way_waited moment self.old)) }
        ensures in_time { IsOk result ↔ (latest_by self.old.books moment (flight_in self.old) < 2 ^ 62) }
        ensures unchanged { OnErr result (self.new ≡ self.old) }
    {
        match &mut self.by {
            By::Plan(flight) => flight.wait(alloc, moment),
            By::Books(books) => books.wait(moment),
        }
    }

    /// The group that runs on that LUN may go on from that moment, or as it might before where that is sooner. From when on is
    /// answered, in ns.
    pub(crate) fn ready(&mut self, lun: u8, moment: u64) -> u64
        requires there { lun < length self.old.now.luns }
        requires in_array { is_in_array (slice_get self.old.now.luns lun) ≡ true }
        ensures ready { self.new ≡ way_ready lun moment self.old }
        ensures from { result ≡ ready_of lun moment (flight_in self.old) }
    {
        match &mut self.by {
            By::Plan(flight) => flight.ready(lun, moment),
            By::Books(books) => books.ready(lun, moment),
        }
    }
}

// Whether the array of a LUN works: its group's next phase is the first post.
fn is_in_array(lun: &LunState) -> bool
    ensures { result ≡ is_in_array (Some lun.now) }
{
    match lun {
        LunState::Running { group, next, .. } => usize::from(*next) == group.len(),
        LunState::Free { .. } => false,
    }
}

// From when on a LUN is free, or its next phase may start.
fn free_from(lun: &LunState) -> u64
    ensures { result ≡ free_from (Some lun.now) }
{
    match lun {
        LunState::Free { since } => *since,
        LunState::Running { ready, .. } => *ready,
    }
}
