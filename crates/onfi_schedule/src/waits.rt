//! The waits between the phases of a group.

ghost use Rattle.std.specs.Prelude.{◌≡◌, ◌+◌, ◌-◌, ◌^◌, ◌<◌, ◌≤◌, ◌↔◌, IsNone, IfSome, Some, length, slice_get};
ghost use Rattle.std.specs.List.{AllByRecursion as Each};
ghost use Rattle.onfi_group.specs.Words.{Has};
ghost use Rattle.onfi_group.specs.Group.{group_spans};
ghost use Rattle.onfi_problem.specs.Problem.{Problem};
ghost use Rattle.onfi_problem.specs.Position.{state_of};
ghost use Rattle.onfi_schedule.specs.Schedule.{Schedule, InOrder, rest_of};
ghost use Rattle.onfi_schedule.specs.Conditions.{Names, EachRest, StateWaits, GroupWaits, states_of};
ghost use Rattle.onfi_schedule.specs.Breaks.{condition_of, keeps_waits};
ghost use Rattle.onfi_schedule.specs.Names.{name_of};
ghost use Rattle.onfi_schedule.specs.Tells.{Tells, HasWork};
ghost use Rattle.onfi_schedule.specs.declared.breach.Breach.TheVariants.{NotReady, WaitTooShort};

use crate::breach::Breach;
use crate::placed::Placed;
use crate::slots::Work;
use crate::starts::Starts;
use onfi_group::{Group, phase_length, wait_before};
use onfi_problem::Lun;
use onfi_request::Want;
use onfi_timing::Timing;

// That phase `number` of these members starts before its LUN is ready for it.
fn not_ready(work: &Work<'_>, members: &[Want], number: usize, start: u64, ready: u64) -> Breach
    ensures about { condition_of result ≡ keeps_waits }
    ensures first { number ≤ work.now.next → result ≡ NotReady (name_of work.now.next work.now.lun members.now number) work.now.lun start ready }
    ensures later { work.now.next < number → result ≡ WaitTooShort (name_of work.now.next work.now.lun members.now number) (name_of work.now.next work.now.lun members.now (number - 1)) work.now.lun start ready }
{
    let phase = work.name(members, number);
    let lun = work.lun;
    if number <= work.next {
        return Breach::NotReady {
            phase,
            lun,
            start,
            ready,
        };
    }
    Breach::WaitTooShort {
        phase,
        before: work.name(members, number - 1),
        lun,
        start,
        ready,
    }
}

// A phase of these members that starts before the wait after the one before it is over, or the first one before `floor`.
fn in_group(work: &Work<'_>, members: &[Want], floor: u64, starts: &[u64]) -> Option<Breach>
    requires some { 1 ≤ length members.now }
    requires starts { Each (λ t. t < 2 ^ 63) starts.now }
    requires phases { work.now.next + length starts.now < 2 ^ 60 }
    ensures none { IsNone result ↔ InOrder (group_spans work.now.timing.now members.now) (length members.now) work.now.next floor starts.now }
    ensures about { IfSome result (λ b. condition_of b ≡ keeps_waits) }
    ensures told { (p : Problem) (s : Schedule) → work.now.timing.now ≡ p.timing → HasWork p s work.now.lun members.now work.now.next floor starts.now → IfSome result (Tells p s) }
{
    let mut floor = floor;
    let mut number = work.next;
    for start in starts {
        if *start < floor {
            return Some(not_ready(work, members, number, *start, floor));
        }
        let ended = *start + phase_length(work.timing, members, number);
        number += 1;
        floor = ended + wait_before(work.timing, members, number);
    }
    None
}

fn in_left(timing: &Timing, table: &[Group], at: u8, lun: &Lun, starts: &Starts) -> Option<Breach>
    requires named { Names table.now lun.now }
    ensures none { IsNone result ↔ StateWaits timing.now (state_of table.now lun.now) starts.now }
    ensures about { IfSome result (λ b. condition_of b ≡ keeps_waits) }
    ensures told { (p : Problem) (s : Schedule) → p.timing ≡ timing.now → slice_get p.luns at ≡ Some (state_of table.now lun.now) → rest_of s at ≡ Some starts.now → IfSome result (Tells p s) }
{
    if lun.next == 0 {
        return None;
    }
    let group = &table[lun.place as usize];
    let work = Work::of_running(timing, at, lun);
    in_group(&work, group.members(), lun.time, starts.as_slice())
}

/// A phase of a running group that starts too early.
pub(crate) fn in_rest(
    timing: &Timing,
    table: &[Group],
    luns: &[Lun],
    rest: &[Starts],
) -> Option<Breach>
    requires few { length luns.now ≤ 8 }
    requires length { length rest.now ≡ length luns.now }
    requires named { Each (Names table.now) luns.now }
    ensures none { IsNone result ↔ EachRest (StateWaits timing.now) (states_of table.now luns.now) rest.now }
    ensures about { IfSome result (λ b. condition_of b ≡ keeps_waits) }
    ensures told { (p : Problem) (s : Schedule) → p.timing ≡ timing.now → p.luns ≡ states_of table.now luns.now → s.rest ≡ rest.now → IfSome result (Tells p s) }
{
    for (at, lun) in luns.iter().enumerate() {
        let breach = in_left(timing, table, at as u8, lun, &rest[at]);
        if breach.is_some() {
            return breach;
        }
    }
    None
}

fn in_new(timing: &Timing, group: &Placed) -> Option<Breach>
    ensures none { IsNone result ↔ GroupWaits timing.now group.now }
    ensures about { IfSome result (λ b. condition_of b ≡ keeps_waits) }
    ensures told { (p : Problem) (s : Schedule) → p.timing ≡ timing.now → Has s.groups group.now → IfSome result (Tells p s) }
{
    let members = group.members();
    let work = Work::of_new(timing, members);
    in_group(&work, members.members(), 0, group.starts().as_slice())
}

/// A phase of a new group that starts too early.
pub(crate) fn in_groups(timing: &Timing, groups: &[Placed]) -> Option<Breach>
    ensures none { IsNone result ↔ Each (GroupWaits timing.now) groups.now }
    ensures about { IfSome result (λ b. condition_of b ≡ keeps_waits) }
    ensures told { (p : Problem) (s : Schedule) → p.timing ≡ timing.now → s.groups ≡ groups.now → IfSome result (Tells p s) }
{
    for group in groups {
        let breach = in_new(timing, group);
        if breach.is_some() {
            return breach;
        }
    }
    None
}
