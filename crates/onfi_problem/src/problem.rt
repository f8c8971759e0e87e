ghost use Rattle.std.specs.Prelude.{◌≡◌, ◌≤◌, ◌^◌, ◌↔◌, IfOk, IsErrOf, length};
ghost use Rattle.onfi_problem.specs.Problem.{HasLengths, IsSmall, IsProblem};
ghost use Rattle.onfi_problem.specs.Left.{InLimits, horizon};
ghost use Rattle.onfi_problem.specs.Kept.{problem_of};

mod listing;
mod moving;
mod readers;

use crate::fault::ProblemFault;
use crate::finding::find_fault;
use crate::lun_state::LunState;
use crate::moves::Lun;
use crate::start_marks::{StartMarks, list_start_marks};
use crate::table::{list_groups, open_luns};
use arrayvec::ArrayVec;
use onfi_group::{Group, Rules};
use onfi_request::Want;
use onfi_timing::Timing;
use std::alloc::{AllocError, Global};
use std::marker::Model;

/// What is left to do on a channel: up to eight wants on one to eight LUNs, each free or running a group.
///
/// Its groups are made once. All that a move changes stands inline, so that a search or a checker makes a move and
/// takes it back without memory.
#[derive(Drop)]
pub struct Problem {
    timing: Timing,
    rules: Rules,
    bus_free: u64,
    luns: ArrayVec<Lun, 8>,
    wants: ArrayVec<Want, 8>,
    waiting: [bool; 8],
    groups: Vec<Group>,
    // What each group asks of the marks of waiting wants.
    start_marks: Vec<StartMarks>,
    // Where the groups begin that the wants of each LUN can form, and where they end.
    first: [usize; 9],
}

impl Model for Problem {
    ghost use Rattle.onfi_problem.specs.Position.{Position};
    ghost use Rattle.std.specs.Prelude.{length};
    ghost use Rattle.onfi_problem.specs.Kept.{IsKept, IsTable, position_of};

    ghost Value = { Position };

    ghost view = { λ p. position_of p.timing p.rules p.bus_free p.luns.items p.wants.items p.waiting p.groups.items };

    ghost invariant = { λ p. IsKept (position_of p.timing p.rules p.bus_free p.luns.items p.wants.items p.waiting p.groups.items) × IsTable p.rules p.wants.items (length p.luns.items) p.groups.items p.first p.start_marks.items };
}

impl Problem {
    /// The problem of a channel whose bus is free from `bus_free` on. Times are ns of the channel's clock.
    ///
    /// # Errors
    /// `TooMany` where there are more than eight wants, no LUN or more than eight; else `BadLun` where a want is of a
    /// LUN that is not there, on a plane above 3, or an erase with a page, numbers of the list do not rise, or what
    /// runs on a LUN is not a group of it of which at least one phase is over and one is left; else `NoLengths`
    /// where the timing states no post for as many sectors as a want or a member of what runs puts out; else `Clock`
    /// where the greatest time, the rest of all running groups and all wants together reach 2^62 ns; `Memory` where
    /// memory for the table of groups was refused.
    pub fn new(
        alloc: Global,
        timing: Timing,
        rules: Rules,
        bus_free: u64,
        luns: &[LunState],
        wants: &[Want],
    ) -> Result<Problem, ProblemFault>
        ensures ok { IfOk result (λ p. p.problem ≡ problem_of timing rules bus_free luns.now wants.now) }
        ensures begun { IfOk result (λ p. p.all ≡ wants.now) }
        ensures lengths { IfOk result (λ p. HasLengths p.problem) }
        ensures too_many { let p = problem_of timing rules bus_free luns.now wants.now in
            IsErrOf result ProblemFault.TooMany ↔ (IsSmall p → ⊥) }
        ensures bad_lun { let p = problem_of timing rules bus_free luns.now wants.now in
            IsErrOf result ProblemFault.BadLun ↔ (IsSmall p × (IsProblem p → ⊥)) }
        ensures no_lengths { let p = problem_of timing rules bus_free luns.now wants.now in
            IsErrOf result ProblemFault.NoLengths ↔ (IsSmall p × IsProblem p × (HasLengths p → ⊥)) }
        ensures clock { let p = problem_of timing rules bus_free luns.now wants.now in
            IsErrOf result ProblemFault.Clock ↔ (IsSmall p × IsProblem p × HasLengths p × (2 ^ 62 ≤ horizon p)) }
        ensures memory { let p = problem_of timing rules bus_free luns.now wants.now in
            IsErrOf result ProblemFault.Memory → InLimits p × HasLengths p }
    {
        if let Some(fault) = find_fault(&timing, &rules, bus_free, luns, wants) {
            return Err(fault);
        }
        match Problem::open(alloc, timing, rules, bus_free, luns, wants) {
            Ok(problem) => Ok(problem),
            Err(_) => Err(ProblemFault::Memory),
        }
    }

    fn open(
        alloc: Global,
        timing: Timing,
        rules: Rules,
        bus_free: u64,
        states: &[LunState],
        wants: &[Want],
    ) -> Result<Problem, AllocError>
        requires { InLimits (problem_of timing rules bus_free states.now wants.now) }
        ensures ok { IfOk result (λ p. p.problem ≡ problem_of timing rules bus_free states.now wants.now) }
        ensures begun { IfOk result (λ p. p.all ≡ wants.now) }
    {
        let mut groups = Vec::new(alloc);
        let luns = open_luns(&mut groups, states, &rules)?;
        let first = list_groups(alloc, &mut groups, wants, states.len(), &rules)?;
        let start_marks = list_start_marks(alloc, groups.as_slice(), wants)?;
        let wants = inline(wants);
        Ok(Problem {
            timing,
            rules,
            bus_free,
            luns,
            wants,
            waiting: [true; 8],
            groups,
            start_marks,
            first,
        })
    }

    /// The same problem once more.
    ///
    /// # Errors
    /// Only where memory was refused.
    pub fn copy(&self, alloc: Global) -> Result<Problem, AllocError>
        ensures { IfOk result (λ p. p ≡ self.now) }
    {
        let groups = copies(alloc, self.groups.as_slice())?;
        let start_marks = Vec::from_slice(alloc, self.start_marks.as_slice())?;
        let waiting = self.waiting;
        let first = self.first;
        Ok(Problem {
            timing: self.timing,
            rules: self.rules,
            bus_free: self.bus_free,
            luns: inline(self.luns.as_slice()),
            wants: inline(self.wants.as_slice()),
            waiting,
            groups,
            start_marks,
            first,
        })
    }
}

// The same items once more, kept inline.
fn inline<T: Copy + Default>(items: &[T]) -> ArrayVec<T, 8>
    requires { length items.now ≤ 8 }
    ensures { result.items ≡ items.now }
{
    ArrayVec::try_from(items).unwrap()
}

// The same groups once more.
fn copies(alloc: Global, groups: &[Group]) -> Result<Vec<Group>, AllocError>
    ensures { IfOk result (λ v. v.items ≡ groups.now) }
{
    let mut copies = Vec::with_capacity(alloc, groups.len())?;
    for group in groups {
        copies.push(group.copy())?;
    }
    Ok(copies)
}
