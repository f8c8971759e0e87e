//! Whether what is said is in order, seen where it stands: nothing is made of it. Times of the later half of the clock count as
//! out of order here, so that no sum of lengths is needed to see that none reaches its end.
ghost use Rattle.std.specs.Prelude.{◌≡◌, ◌<◌, ◌≤◌, ◌^◌, ◌↔◌, false, length, take, IsTrue};
ghost use Rattle.std.specs.List.{AllByRecursion as Each, list_any};
ghost use Rattle.onfi_timing.specs.declared.timing.Timing.{Timing as Lengths};
ghost use Rattle.onfi_group.specs.Group.{IsGroup};
ghost use Rattle.onfi_problem.specs.Checks.{AreLuns, IsLun};
ghost use Rattle.onfi_problem.specs.Left.{InLimits};
ghost use Rattle.onfi_problem.specs.Problem.{IsRunning};
ghost use Rattle.onfi_calls.specs.InOrder.{AreEarly, RiseFrom, problem_said};
ghost use Rattle.onfi_calls.specs.InOrder as spec;
ghost use Rattle.onfi_calls.specs.Problem.{has_bad_count, members_of, state_of, states_of, wants_of};

use crate::channel::{PlainLun, PlainWant};
use crate::problem::few_wants_of;
use crate::schedule::{PlainGroup, PlainRest, PlainSchedule};
use onfi_group::{Rules, is_group};

/// The first moment of the later half of the clock, in ns.
pub const HALF: u64 = 1 << 61;

/// Whether numbers rise, and stay below that one.
fn are_rising(wants: &[PlainWant], below: u64) -> bool
    ensures { IsTrue result ↔ RiseFrom 0 below wants.now }
{
    let mut floor = 0;
    for want in wants {
        if want.id < floor || want.id >= below {
            return false;
        }
        floor = want.id + 1;
    }
    true
}

/// Whether it is an erase that names a page.
pub fn has_page(want: &PlainWant) -> bool
    ensures { result ≡ spec.has_page want.now }
{
    want.kind % 32 > 1 && want.page != 0
}

/// Whether one of them is.
fn have_page(wants: &[PlainWant]) -> bool
    ensures { result ≡ list_any spec.has_page wants.now }
{
    wants.iter().any(|want| has_page(want))
}

/// Whether it is of a LUN that isn't there.
fn is_foreign(luns: usize, want: &PlainWant) -> bool
    ensures { result ≡ spec.is_foreign luns want.now }
{
    usize::from(want.lun) >= luns
}

/// Whether one of them is.
fn have_foreign(luns: usize, wants: &[PlainWant]) -> bool
    ensures { result ≡ list_any (spec.is_foreign luns) wants.now }
{
    wants.iter().any(|want| is_foreign(luns, want))
}

/// Whether these wants run on that LUN as a group, of which that phase comes next.
fn is_running(rules: &Rules, at: usize, members: &[PlainWant], next: u8) -> bool
    requires { length members.now ≤ 4 }
    ensures { IsTrue result → IsRunning rules.now at (wants_of rules.now.plane_bits members.now) next }
{
    if members.is_empty() || have_page(members) || usize::from(members[0].lun) != at {
        return false;
    }
    if next == 0 || usize::from(next) >= 2 * members.len() {
        return false;
    }
    members.len() == 1 || are_group(rules, members)
}

/// Whether these wants may run as one.
fn are_group(rules: &Rules, members: &[PlainWant]) -> bool
    requires { length members.now ≤ 4 }
    ensures { IsTrue result → IsGroup rules.now (wants_of rules.now.plane_bits members.now) }
{
    is_group(rules, few_wants_of(rules.plane_bits, members).as_slice())
}

/// Whether a LUN is free, or runs a group of its own.
fn is_lun(rules: &Rules, at: usize, said: &PlainLun) -> bool
    requires { has_bad_count said.now ≡ false }
    ensures { IsTrue result → IsLun rules.now at (state_of rules.now.plane_bits said.now) }
{
    if said.members == 0 {
        return true;
    }
    is_running(
        rules,
        at,
        &said.member[..usize::from(said.members)],
        said.next,
    )
}

/// The same of each LUN.
fn are_luns(rules: &Rules, luns: &[PlainLun]) -> bool
    requires { list_any has_bad_count luns.now ≡ false }
    ensures { IsTrue result → AreLuns rules.now 0 (states_of rules.now.plane_bits luns.now) }
{
    for (at, lun) in luns.iter().enumerate() {
        if !is_lun(rules, at, lun) {
            return false;
        }
    }
    true
}

/// Whether none is ready in the later half of the clock.
fn are_early(luns: &[PlainLun]) -> bool
    ensures { IsTrue result → AreEarly luns.now }
{
    for lun in luns {
        if lun.since >= HALF {
            return false;
        }
    }
    true
}

/// Whether what is said is a problem, and all of its times are in the earlier half of the clock.
pub fn is_in_order(rules: &Rules, bus_free: u64, luns: &[PlainLun], wants: &[PlainWant]) -> bool
    requires counts { list_any has_bad_count luns.now ≡ false }
    requires few { (length luns.now ≤ 8) × (length wants.now ≤ 8) }
    ensures limits { (timing : Lengths) → IsTrue result → InLimits (problem_said timing rules.now bus_free luns.now wants.now) }
    ensures early { IsTrue result → AreEarly luns.now }
{
    if bus_free >= HALF || luns.is_empty() || !are_early(luns) || !are_luns(rules, luns) {
        return false;
    }
    if have_page(wants) || have_foreign(luns.len(), wants) {
        return false;
    }
    are_rising(wants, u64::MAX)
}

/// Whether one of the first starts is in the later half of the clock.
fn have_half(starts: &[u64], count: usize) -> bool
    ensures { result ≡ list_any spec.is_half (take count starts.now) }
{
    starts.iter().take(count).any(|start| *start >= HALF)
}

fn is_odd_rest(rest: &PlainRest) -> bool
    ensures { result ≡ spec.is_odd_rest rest.now }
{
    rest.starts > 8 || have_half(&rest.start, rest.starts as usize)
}

fn is_odd_group(group: &PlainGroup) -> bool
    ensures { result ≡ spec.is_odd_group group.now }
{
    group.members == 0 || group.members > 4 || have_half(&group.start, 2 * group.members as usize)
}

fn have_odd_rest(rests: &[PlainRest], count: usize) -> bool
    ensures { result ≡ list_any spec.is_odd_rest (take count rests.now) }
{
    rests.iter().take(count).any(|rest| is_odd_rest(rest))
}

fn have_odd_group(groups: &[PlainGroup], count: usize) -> bool
    ensures { result ≡ list_any spec.is_odd_group (take count groups.now) }
{
    groups.iter().take(count).any(|group| is_odd_group(group))
}

/// Whether no schedule is said, or one that reaches the later half of the clock.
pub fn is_odd_schedule(said: &PlainSchedule) -> bool
    ensures { result ≡ spec.is_odd_schedule said.now }
{
    said.luns > 8
        || said.groups > 8
        || have_odd_rest(&said.rest, said.luns as usize)
        || have_odd_group(&said.group, said.groups as usize)
}
