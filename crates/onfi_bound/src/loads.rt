ghost use Rattle.std.specs.Prelude.{◌≡◌, ◌+◌, ◌≤◌, ◌<◌, ℕ, IfOk, IfSome, MatchOption, false, slice_index_or, length};
ghost use Rattle.onfi_bound.specs.Loads.{AreLoads, AreLoadsBefore, IsLoad};
ghost use Rattle.onfi_bound.specs.Bounds.{bus};
ghost use Rattle.onfi_bound.specs.Reaching.{NoneReaches, IsFirstAt};

use crate::bound::{Bound, BoundAt};
use crate::load::Load;
use onfi_problem::Problem;
use std::alloc::{AllocError, Global};

/// What each set of a problem's wants takes, made once for all that a search asks of the problem and of what its moves
/// leave.
#[derive(Drop)]
pub struct Loads {
    /// In the order of [`index_of`] their marks, two to the number of wants.
    pub of: Vec<Load>,
}

impl Loads {
    /// What each set of the wants takes that wait.
    ///
    /// # Errors
    /// Only where memory was refused.
    pub fn new(alloc: Global, problem: &Problem) -> Result<Loads, AllocError>
        ensures { IfOk result (λ loads. AreLoads problem.now loads.of.items) }
    {
        let width = problem.wants().len();
        let mut of = Vec::with_capacity(alloc, 1usize << width)?;
        of.push(Load::none(&marks_from(problem.waiting(), width)))?;
        for number in 0..width {
            add_want(&mut of, problem, number)?;
        }
        Ok(Loads { of })
    }

    /// What [`crate::closing`] answers, in less time.
    pub fn closing(&self, problem: &Problem, e: u64) -> Option<BoundAt>
        requires { AreLoads problem.now self.now.of.items }
        ensures { MatchOption result (NoneReaches problem.now.problem e) (λ first. IsFirstAt problem.now.problem e first) }
    {
        match self.of_waiting(problem) {
            Some(load) => load.closing(problem, e),
            None => crate::closing(problem, e),
        }
    }

    /// What [`Loads::closing`] answers of a problem whose bus bound comes to `at` ns, without a look at any LUN where that
    /// reaches `e`.
    #[inline(always)]
    pub fn closing_from(&self, problem: &Problem, at: u64, e: u64) -> Option<BoundAt>
        requires loads { AreLoads problem.now self.now.of.items }
        requires bus { at ≡ bus problem.now.problem }
        ensures { MatchOption result (NoneReaches problem.now.problem e) (λ first. IsFirstAt problem.now.problem e first) }
    {
        if at >= e {
            return Some(BoundAt {
                bound: Bound::Bus,
                at,
            });
        }
        self.closing(problem, e)
    }

    /// What the wants take that wait; None where the loads are of another problem.
    #[inline(always)]
    pub fn of_waiting(&self, problem: &Problem) -> Option<&Load>
        requires { AreLoads problem.now self.now.of.items }
        ensures { IfSome result (λ load. IsLoad problem.now.problem.timing problem.now.problem.rules problem.now.problem.wants load.now) }
    {
        let waiting = problem.waiting();
        // (marks past the last want mean nothing, and are no part of a place)
        let place = index_of(waiting) & self.of.len().wrapping_sub(1);
        let load = self.of.get(place)?;
        if load.is_of(waiting) {
            Some(load)
        } else {
            None
        }
    }
}

// After the loads of all sets of the wants before that number come, in their order, those that have this want too.
fn add_want(of: &mut Vec<Load>, problem: &Problem, number: usize) -> Result<(), AllocError>
    requires number { number < length problem.now.all }
    requires loads { AreLoadsBefore problem.now number of.old.items }
    ensures { IfOk result (λ done. AreLoadsBefore problem.now (number + 1) of.new.items) }
{
    for at in 0..of.len() {
        let mut load = of[at];
        load.add_number(problem, number);
        of.push(load)?;
    }
    Ok(())
}

// The marks from that number on, and none before.
fn marks_from(marks: &[bool; 8], number: usize) -> [bool; 8]
    requires { number ≤ 8 }
    ensures { (i : ℕ) → i < number → slice_index_or result i false ≡ false }
{
    let mut left = *marks;
    for i in 0..number {
        left[i] = false;
    }
    left
}

// The number with the marks as its bits, the first one lowest. The marks are taken as the bytes of a number, of which the
// product puts the one at place i to bit 56 + i, and all others below.
fn index_of(marks: &[bool; 8]) -> usize {
    let bytes = u64::from_le_bytes([
        marks[0] as u8,
        marks[1] as u8,
        marks[2] as u8,
        marks[3] as u8,
        marks[4] as u8,
        marks[5] as u8,
        marks[6] as u8,
        marks[7] as u8,
    ]);
    (bytes.wrapping_mul(0x0102_0408_1020_4080) >> 56) as usize
}
