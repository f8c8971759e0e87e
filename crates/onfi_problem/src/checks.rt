//! Whether what is given is a problem.

ghost use Rattle.std.specs.Prelude.{ℕ, ◌<◌, ◌≤◌, ◌↔◌, IsTrue, length};
ghost use Rattle.std.specs.List.{AllByRecursion as Each};
ghost use Rattle.onfi_timing.specs.Kinds.{IsStated};
ghost use Rattle.onfi_timing.specs.declared.timing.Timing.{Timing as AnyTiming};
ghost use Rattle.onfi_group.specs.declared.rules.Rules.{Rules as AnyRules};
ghost use Rattle.onfi_group.specs.Words.{Pairs};
ghost use Rattle.onfi_problem.specs.Problem.{AreStated, HasLengths, IsLunStated, IsProblem, IsRunning, IsWant};
ghost use Rattle.onfi_problem.specs.Kept.{problem_of};
ghost use Rattle.onfi_problem.specs.Checks.{IsLun, AreLuns};

use crate::lun_state::LunState;
use onfi_group::{Group, Rules};
use onfi_request::Want;
use onfi_timing::{Kind, Timing};

// At most eight wants, and one to eight LUNs.
pub fn is_small(luns: &[LunState], wants: &[Want]) -> bool
    ensures { IsTrue result ↔ ((length wants.now ≤ 8) × (1 ≤ length luns.now) × (length luns.now ≤ 8)) }
{
    wants.len() <= 8 && !luns.is_empty() && luns.len() <= 8
}

// Wants of these LUNs with rising numbers, and what runs is a group of its LUN.
pub fn is_problem(rules: &Rules, luns: &[LunState], wants: &[Want]) -> bool
    ensures { (timing : AnyTiming) (bus_free : ℕ) →
        IsTrue result ↔ IsProblem (problem_of timing rules.now bus_free luns.now wants.now) }
{
    is_list(wants, luns.len()) && are_luns(rules, luns)
}

// Whether the timing states lengths for all that waits or runs.
pub fn has_lengths(timing: &Timing, luns: &[LunState], wants: &[Want]) -> bool
    ensures { (rules : AnyRules) (bus_free : ℕ) →
        IsTrue result ↔ HasLengths (problem_of timing.now rules bus_free luns.now wants.now) }
{
    are_stated(timing, wants) && are_luns_stated(timing, luns)
}

fn are_stated(timing: &Timing, wants: &[Want]) -> bool
    ensures { IsTrue result ↔ AreStated timing.now wants.now }
{
    for want in wants {
        if !timing.states(want.kind) {
            return false;
        }
    }
    true
}

fn are_luns_stated(timing: &Timing, luns: &[LunState]) -> bool
    ensures { IsTrue result ↔ Each (IsLunStated timing.now) luns.now }
{
    for state in luns {
        if !is_lun_stated(timing, state) {
            return false;
        }
    }
    true
}

fn is_lun_stated(timing: &Timing, state: &LunState) -> bool
    ensures { IsTrue result ↔ IsLunStated timing.now state.now }
{
    match state {
        LunState::Free { .. } => true,
        LunState::Running { group, .. } => are_stated(timing, group.members()),
    }
}

// Wants of that many LUNs, with rising numbers.
fn is_list(wants: &[Want], luns: usize) -> bool
    ensures { IsTrue result ↔
        (Each IsWant wants.now × Each (λ w. w.lun < luns) wants.now × Pairs (λ a b. a.id < b.id) wants.now) }
{
    are_wants(wants) && are_in_range(wants, luns) && ids_rise(wants)
}

fn is_want(want: &Want) -> bool
    ensures { IsTrue result ↔ IsWant want.now }
{
    want.plane <= 3 && (want.kind != Kind::Erase || want.page == 0)
}

fn are_wants(wants: &[Want]) -> bool
    ensures { IsTrue result ↔ Each IsWant wants.now }
{
    for want in wants {
        if !is_want(want) {
            return false;
        }
    }
    true
}

fn are_in_range(wants: &[Want], luns: usize) -> bool
    ensures { IsTrue result ↔ Each (λ w. w.lun < luns) wants.now }
{
    for want in wants {
        if want.lun as usize >= luns {
            return false;
        }
    }
    true
}

fn ids_rise(wants: &[Want]) -> bool
    ensures { IsTrue result ↔ Pairs (λ a b. a.id < b.id) wants.now }
{
    for at in 1..wants.len() {
        if wants[at].id <= wants[at - 1].id {
            return false;
        }
    }
    true
}

fn are_luns(rules: &Rules, luns: &[LunState]) -> bool
    ensures { IsTrue result ↔ AreLuns rules.now 0 luns.now }
{
    for (at, state) in luns.iter().enumerate() {
        if !is_lun(rules, at, state) {
            return false;
        }
    }
    true
}

fn is_lun(rules: &Rules, at: usize, state: &LunState) -> bool
    ensures { IsTrue result ↔ IsLun rules.now at state.now }
{
    match state {
        LunState::Free { .. } => true,
        LunState::Running { group, next, .. } => is_running(rules, at, group, *next),
    }
}

fn is_running(rules: &Rules, at: usize, group: &Group, next: u8) -> bool
    ensures { IsTrue result ↔ IsRunning rules.now at group.now next }
{
    group.is_group(rules)
        && group.lun() as usize == at
        && are_wants(group.members())
        && next >= 1
        && (next as usize) < 2 * group.len()
}
