ghost use Rattle.std.specs.Prelude.{◌≡◌, ◌≢◌, ℕ, ◌↔◌, ◌<◌, ◌≤◌, ◌^◌, [], length, List, None, Some, slice_get, IfSome, IsTrue, MatchOption};
ghost use Rattle.std.specs.List.{AllByRecursion as Each};
ghost use Rattle.onfi_problem.specs.Position.{waiting_of};
ghost use Rattle.onfi_schedule.specs.Schedule.{phases};
ghost use Rattle.onfi_flight.specs.Flight.{IsFlight, IsFree, IsOver, Tells, idle};
ghost use Rattle.onfi_flight.specs.Turns.{IsTurn, turn_time};
ghost use Rattle.onfi_flight.specs.declared.flight.Next.TheVariants as next;
ghost use Rattle.onfi_flight.specs.declared.turn.Turn.TheVariants as turn;

mod going;
mod passing;

use crate::due::Due;
use crate::luns::Luns;
use crate::startable::is_startable;
use crate::turn::{Start, Turn, next_turn};
use arrayvec::ArrayVec;
use onfi_group::{Group, Rules};
use onfi_problem::{LunState, Problem};
use onfi_request::Want;
use onfi_schedule::{Schedule, no_starts};
use onfi_timing::Timing;
pub use passing::TooLate;
use std::alloc::Global;
use std::marker::Model;

/// What is left of a plan: the problem as it stands, and the starts that are left. All of it stands inline.
#[derive(Drop)]
pub struct Flight {
    timing: Timing,
    rules: Rules,
    bus_free: u64,
    luns: Luns,
    wants: ArrayVec<Want, 8>,
    left: Schedule,
}

impl Model for Flight {
    ghost use Rattle.onfi_flight.specs.Flight.{Flight as Left};

    ghost Value = { Left };

    ghost view = { λ f. record {
      now = record { timing = f.timing; rules = f.rules; bus_free = f.bus_free; luns = f.luns; wants = f.wants.items };
      left = f.left;
    } };
}

/// What comes next of a flight.
#[derive(Drop)]
pub enum Next {
    /// The undone phase of least start, which may run; of equals that of a running group, then that which stands first.
    Due(Due),
    /// No start is left, nothing waits and nothing runs.
    Done,
    /// The phase of least start may not run, or what waits or runs has no start: what is left isn't legal.
    Illegal,
}

impl Flight {
    /// Nothing runs, nothing waits and nothing is planned: the bus is free from then on, and that many LUNs from 0 on.
    pub fn idle(alloc: Global, timing: Timing, rules: Rules, bus_free: u64, lun_count: u8) -> Flight
        requires { lun_count ≤ 8 }
        ensures { result ≡ idle timing rules bus_free lun_count }
    {
        Flight {
            timing,
            rules,
            bus_free,
            luns: Luns::free(lun_count),
            wants: ArrayVec::new(),
            left: Schedule::new(no_starts(usize::from(lun_count)), ArrayVec::new_in(alloc)),
        }
    }

    /// A schedule of a problem of which nothing is done.
    pub fn of(problem: &Problem, schedule: &Schedule) -> Flight
        ensures { result ≡ record { now = problem.now.problem; left = schedule.now } }
    {
        Flight {
            timing: *problem.timing(),
            rules: problem.rules(),
            bus_free: problem.bus_free(),
            luns: Luns::of(problem),
            wants: wants_of(problem),
            left: schedule.copy(),
        }
    }

    /// The phase lengths of the channel.
    pub fn timing(&self) -> Timing
        ensures { result ≡ self.now.now.timing }
    {
        self.timing
    }

    /// What may be grouped.
    pub fn rules(&self) -> Rules
        ensures { result ≡ self.now.now.rules }
    {
        self.rules
    }

    /// From when on the bus is free, in ns of the channel's clock.
    pub fn bus_free(&self) -> u64
        ensures { result ≡ self.now.now.bus_free }
    {
        self.bus_free
    }

    /// What each LUN does.
    pub fn luns(&self) -> &[LunState]
        ensures value { result.now ≡ self.now.now.luns }
        ensures few { length self.now.now.luns ≤ 8 }
    {
        self.luns.as_slice()
    }

    /// The wants that wait.
    pub fn wants(&self) -> &[Want]
        ensures value { result.now ≡ self.now.now.wants }
        ensures few { length self.now.now.wants ≤ 8 }
    {
        self.wants.as_slice()
    }

    /// The starts that are left.
    pub fn left(&self) -> &Schedule
        ensures { result.now ≡ self.now.left }
    {
        &self.left
    }

    /// Whether no start is left.
    pub fn is_done(&self) -> bool
        ensures over { IsTrue result ↔ IsOver self.now.left }
        ensures done { IsFlight self.now → IsTrue result ↔ (phases self.now.now self.now.left ≡ []) }
    {
        self.turn().is_none()
    }

    /// The undone phase of least start, if it may run: that is a fact of this phase alone. Where what is left is legal it may.
    pub fn due(&self) -> Next
        ensures tells { Tells self.now result }
        ensures legal { IsFlight self.now → result ≢ next.Illegal }
        ensures done { IsFlight self.now → (result ≡ next.Done) ↔ (phases self.now.now self.now.left ≡ []) }
    {
        match self.turn() {
            Some(Turn::Next(next)) => self.next_of(next),
            Some(Turn::First(first)) => self.first_of(first),
            None => self.without_start(),
        }
    }

    // What comes next where no start is left: nothing, or what waits or runs has no start, so what is left isn't legal.
    fn without_start(&self) -> Next
        requires { IsOver self.now.left }
        ensures { Tells self.now result }
    {
        if !self.wants.is_empty() || !are_free(self.luns()) {
            return Next::Illegal;
        }
        Next::Done
    }

    // Where the least start stands, if one is left.
    fn turn(&self) -> Option<Turn>
        ensures turn { MatchOption result (IsOver self.now.left) (IsTurn self.now.left.rest self.now.left.groups) }
        ensures time { IfSome result (λ t. turn_time t < 2 ^ 63) }
    {
        next_turn(self.left.rest(), self.left.groups())
    }

    // The members of the new group at that place.
    fn group_at(&self, place: usize) -> &Group
        requires { place < length self.now.left.groups }
        ensures { (starts : List ℕ) × (slice_get self.now.left.groups place ≡ Some (record { members = result.now; starts = starts })) }
    {
        self.left.groups()[place].members()
    }

    // What that LUN does, if it is there.
    fn lun_at(&self, lun: usize) -> Option<&LunState>
        ensures state { MatchOption result (slice_get self.now.now.luns lun ≡ None) (λ state. slice_get self.now.now.luns lun ≡ Some state.now) }
        ensures few { IfSome result (λ _. lun < 8) }
    {
        self.luns().get(lun)
    }

    // The next phase of the group that runs on that LUN, if it may run.
    fn next_of(&self, next: Start) -> Next
        requires turn { IsTurn self.now.left.rest self.now.left.groups (turn.Next next) }
        requires time { turn_time (turn.Next next) < 2 ^ 63 }
        ensures { Tells self.now result }
    {
        let Some(state) = self.lun_at(next.at) else {
            return Next::Illegal;
        };
        let LunState::Running {
            group,
            next: phase,
            ready,
        } = state
        else {
            return Next::Illegal;
        };
        if next.time < self.bus_free.max(*ready) || 2 * group.len() <= usize::from(*phase) {
            return Next::Illegal;
        }
        Next::Due(Due {
            start: next.time,
            group: group.copy(),
            phase: *phase,
            lun: next.at as u8,
            place: None,
        })
    }

    // The first phase of the group at that place, if it may run.
    fn first_of(&self, first: Start) -> Next
        requires turn { IsTurn self.now.left.rest self.now.left.groups (turn.First first) }
        requires time { turn_time (turn.First first) < 2 ^ 63 }
        ensures { Tells self.now result }
    {
        let group = self.group_at(first.at);
        let lun = usize::from(group.lun());
        let Some(state) = self.lun_at(lun) else {
            return Next::Illegal;
        };
        let LunState::Free { since } = state else {
            return Next::Illegal;
        };
        if first.time < self.bus_free.max(*since) || self.left.rest().len() <= lun {
            return Next::Illegal;
        }
        if !is_startable(&self.rules, self.wants(), group) {
            return Next::Illegal;
        }
        Next::Due(Due {
            start: first.time,
            group: group.copy(),
            phase: 0,
            lun: group.lun(),
            place: Some(first.at),
        })
    }
}

// Whether nothing runs on any of them.
fn are_free(luns: &[LunState]) -> bool
    ensures { IsTrue result ↔ Each IsFree luns.now }
{
    for state in luns {
        if let LunState::Running { .. } = state {
            return false;
        }
    }
    true
}

/// The wants of a problem that wait.
pub fn wants_of(problem: &Problem) -> ArrayVec<Want, 8>
    ensures { result.items ≡ problem.now.problem.wants }
{
    waiting(problem.wants(), problem.waiting())
}

// Those that are marked.
fn waiting(all: &[Want], marks: &[bool; 8]) -> ArrayVec<Want, 8>
    requires { length all.now ≤ 8 }
    ensures { result.items ≡ waiting_of marks.now all.now }
{
    let mut wants = ArrayVec::new();
    for (i, want) in all.iter().enumerate() {
        if marks[i] {
            wants.push(*want);
        }
    }
    wants
}
