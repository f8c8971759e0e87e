//! The schedule of steps.

ghost use Rattle.std.specs.Prelude.{◌≡◌, ℕ, ◌^◌, ◌<◌, [], ◌∷◌, length, slice_index_or, slice_set};
ghost use Rattle.onfi_problem.specs.Left.{InLimits};
ghost use Rattle.onfi_schedule.specs.Runs.{Run, schedule_of};
ghost use Rattle.onfi_schedule.specs.Schedule.{Legal, finish};
ghost use Rattle.onfi_planner.specs.Planning.{AreRising, run_of};

use crate::search::Begun;
use arrayvec::ArrayVec;
use onfi_problem::{Move, Problem};
use onfi_schedule::{Placed, Schedule, Starts, no_starts};
use std::alloc::Global;
use std::mem;

/// The schedule of the steps of a run, given last first; this takes no memory.
pub fn schedule_of(alloc: Global, problem: &Problem, steps: &[Begun]) -> Schedule
    requires limits { InLimits problem.now.problem }
    requires run { (f : ℕ) × (f < 2 ^ 63) × Run problem.now.problem (run_of problem.now.groups steps.now) f }
    ensures is { result ≡ schedule_of problem.now.problem (run_of problem.now.groups steps.now) }
    ensures legal { Legal problem.now.problem result }
    ensures rising { AreRising result.groups }
    ensures finish { (f : ℕ) → Run problem.now.problem (run_of problem.now.groups steps.now) f → finish problem.now.problem result ≡ f }
{
    let mut rest = no_starts(problem.lun_count());
    let mut groups = ArrayVec::new_in(alloc);
    for begun in steps {
        match begun.step {
            Move::Next { lun } => put_in_front(&mut rest, lun as usize, begun.start),
            Move::Start { place, .. } => {
                let group = problem.group(place);
                let lun = group.lun() as usize;
                put_in_front(&mut rest, lun, begun.start);
                let starts = take_starts(&mut rest, lun);
                groups.insert(0, Placed::new(group.copy(), starts));
            }
        }
    }
    Schedule::new(rest, groups)
}

// Puts a start in front of those of a LUN.
fn put_in_front(rest: &mut ArrayVec<Starts, 9>, lun: usize, start: u64)
    requires there { lun < length rest.old.items }
    requires room { length (slice_index_or rest.old.items lun []) < 8 }
    requires small { start < 2 ^ 63 }
    ensures { rest.new.items ≡ slice_set rest.old.items lun (start ∷ slice_index_or rest.old.items lun []) }
{
    let starts = in_front(start, &rest[lun]);
    rest[lun] = starts;
}

// Takes the starts of a LUN, so that it has none.
fn take_starts(rest: &mut ArrayVec<Starts, 9>, lun: usize) -> Starts
    requires { lun < length rest.old.items }
    ensures taken { result ≡ slice_index_or rest.old.items lun [] }
    ensures none { rest.new.items ≡ slice_set rest.old.items lun [] }
{
    mem::replace(&mut rest[lun], Starts::new())
}

// A start, and others after it.
fn in_front(start: u64, others: &Starts) -> Starts
    requires room { length others.now < 8 }
    requires small { start < 2 ^ 63 }
    ensures { result ≡ start ∷ others.now }
{
    let mut starts = Starts::new();
    starts.push(start);
    for other in others.as_slice() {
        starts.push(*other);
    }
    starts
}
