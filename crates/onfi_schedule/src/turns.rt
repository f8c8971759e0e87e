//! The order of groups on one LUN.

ghost use Rattle.std.specs.Prelude.{◌≡◌, ◌⊎◌, ◌≤◌, ◌↔◌, IsNone, IfSome, IsTrue, Some, length, slice_get};
ghost use Rattle.std.specs.List.{AllByRecursion as Each};
ghost use Rattle.onfi_group.specs.Words.{Has, Pairs};
ghost use Rattle.onfi_group.specs.Group.{lun_of};
ghost use Rattle.onfi_problem.specs.Problem.{Problem};
ghost use Rattle.onfi_problem.specs.Position.{state_of};
ghost use Rattle.onfi_schedule.specs.Schedule.{Placed as PlacedGroup, Schedule, Before, phases_left, group_phases, latest, rest_of, TakeTurns};
ghost use Rattle.onfi_schedule.specs.Conditions.{Names, states_of, LeftFirst};
ghost use Rattle.onfi_schedule.specs.Breaks.{condition_of, running_first, takes_turns};
ghost use Rattle.onfi_schedule.specs.Names.{Named, StartsFirst, named_group};
ghost use Rattle.onfi_schedule.specs.Slots.{phases_in, named_slot, named_in, EndsFirst};
ghost use Rattle.onfi_schedule.specs.Tells.{Tells, AreTwo, first_id};
ghost use Rattle.onfi_schedule.specs.declared.breach.Breach.TheVariants.{RunningGroupLeft, LunTaken};

use crate::breach::Breach;
use crate::placed::Placed;
use crate::slot::Slot;
use crate::slots::{self, GroupSlots};
use crate::starts::Starts;
use arrayvec::ArrayVec;
use onfi_group::Group;
use onfi_problem::Lun;
use onfi_timing::Timing;

/// The phases of a new group.
pub(crate) fn slots_of(timing: &Timing, group: &Placed) -> GroupSlots
    ensures phases { phases_in result.items ≡ group_phases timing.now group.now }
    ensures named { named_in result.items ≡ named_group timing.now group.now }
{
    let mut slots = ArrayVec::new();
    let starts = group.starts().as_slice();
    slots::push_group(&mut slots, timing, group.members(), starts);
    slots
}

// Whether the phase has ended when any of the others starts.
fn ends_before(slot: &Slot, others: &[Slot]) -> bool
    ensures { IsTrue result ↔ EndsFirst slot.now.phase (phases_in others.now) }
{
    for other in others {
        if !slot.phase.ends_by(other.phase.start) {
            return false;
        }
    }
    true
}

/// Whether the ones have ended when any of the others starts.
pub(crate) fn are_before(slots: &[Slot], others: &[Slot]) -> bool
    ensures { IsTrue result ↔ Before (phases_in slots.now) (phases_in others.now) }
{
    for slot in slots {
        if !ends_before(slot, others) {
            return false;
        }
    }
    true
}

// The one that starts sooner, of two at a time the first.
fn pick_sooner(first: Slot, slot: &Slot) -> Slot
    ensures one { (result ≡ first) ⊎ (result ≡ slot.now) }
    ensures first { result.phase.start ≤ first.phase.start }
    ensures other { result.phase.start ≤ slot.now.phase.start }
{
    if slot.phase.start < first.phase.start {
        *slot
    } else {
        first
    }
}

/// The phase of least start.
pub(crate) fn first_slot(slots: &[Slot]) -> Slot
    ensures { 1 ≤ length slots.now → StartsFirst (named_in slots.now) (named_slot result) }
{
    let mut first = slots.first().copied().unwrap_or_default();
    for slot in slots {
        first = pick_sooner(first, slot);
    }
    first
}

// That the group starts before that of the left phases, which runs on its LUN, has ended.
fn running_left(own: &[Slot], left: &[Slot]) -> Breach
    ensures about { condition_of result ≡ running_first }
    ensures told { 1 ≤ length own.now → (x : Named) × StartsFirst (named_in own.now) x × (result ≡ RunningGroupLeft x.name x.phase.lun x.phase.start (latest 0 (phases_in left.now))) }
{
    let first = first_slot(own);
    Breach::RunningGroupLeft {
        phase: first.name,
        lun: first.phase.lun,
        start: first.phase.start,
        end: slots::latest(0, left),
    }
}

// The phases that are left of what runs on a LUN.
fn left_slots(timing: &Timing, table: &[Group], at: u8, lun: &Lun, starts: &Starts) -> GroupSlots
    requires named { Names table.now lun.now }
    ensures { phases_in result.items ≡ phases_left timing.now at (state_of table.now lun.now) starts.now }
{
    let mut slots = ArrayVec::new();
    slots::push_left(&mut slots, timing, table, at, lun, starts);
    slots
}

fn before_end_of(
    timing: &Timing,
    table: &[Group],
    lun: &Lun,
    starts: &Starts,
    group: &Placed,
) -> Option<Breach>
    requires named { Names table.now lun.now }
    ensures none { IsNone result ↔ Before (phases_left timing.now (lun_of group.now.members) (state_of table.now lun.now) starts.now) (group_phases timing.now group.now) }
    ensures about { IfSome result (λ b. condition_of b ≡ running_first) }
    ensures told { (p : Problem) (s : Schedule) → p.timing ≡ timing.now → Has s.groups group.now → slice_get p.luns (lun_of group.now.members) ≡ Some (state_of table.now lun.now) → rest_of s (lun_of group.now.members) ≡ Some starts.now → IfSome result (Tells p s) }
{
    let left = left_slots(timing, table, group.members().lun(), lun, starts);
    let own = slots_of(timing, group);
    if are_before(left.as_slice(), own.as_slice()) {
        return None;
    }
    Some(running_left(own.as_slice(), left.as_slice()))
}

fn before_left(
    timing: &Timing,
    table: &[Group],
    luns: &[Lun],
    rest: &[Starts],
    group: &Placed,
) -> Option<Breach>
    requires length { length rest.now ≡ length luns.now }
    requires named { Each (Names table.now) luns.now }
    ensures none { IsNone result ↔ LeftFirst timing.now (states_of table.now luns.now) rest.now group.now }
    ensures about { IfSome result (λ b. condition_of b ≡ running_first) }
    ensures told { (p : Problem) (s : Schedule) → p.timing ≡ timing.now → p.luns ≡ states_of table.now luns.now → s.rest ≡ rest.now → Has s.groups group.now → IfSome result (Tells p s) }
{
    let place = group.members().lun() as usize;
    if place >= luns.len() {
        return None;
    }
    before_end_of(timing, table, &luns[place], &rest[place], group)
}

/// A group that starts before the running group of its LUN has ended.
pub(crate) fn running_not_over(
    timing: &Timing,
    table: &[Group],
    luns: &[Lun],
    rest: &[Starts],
    groups: &[Placed],
) -> Option<Breach>
    requires length { length rest.now ≡ length luns.now }
    requires named { Each (Names table.now) luns.now }
    ensures none { IsNone result ↔ Each (LeftFirst timing.now (states_of table.now luns.now) rest.now) groups.now }
    ensures about { IfSome result (λ b. condition_of b ≡ running_first) }
    ensures told { (p : Problem) (s : Schedule) → p.timing ≡ timing.now → p.luns ≡ states_of table.now luns.now → s.rest ≡ rest.now → s.groups ≡ groups.now → IfSome result (Tells p s) }
{
    for group in groups {
        let breach = before_left(timing, table, luns, rest, group);
        if breach.is_some() {
            return breach;
        }
    }
    None
}

// That the one group starts while the other one has their LUN.
fn report_taken_lun(own: &[Slot], holder: u64, held: &[Slot]) -> Breach
    ensures about { condition_of result ≡ takes_turns }
    ensures told { 1 ≤ length own.now → 1 ≤ length held.now → (x y : Named) × StartsFirst (named_in own.now) x × StartsFirst (named_in held.now) y × (result ≡ LunTaken x.name x.phase.lun x.phase.start holder y.phase.start (latest 0 (phases_in held.now))) }
{
    let first = first_slot(own);
    Breach::LunTaken {
        phase: first.name,
        lun: first.phase.lun,
        start: first.phase.start,
        holder,
        from: first_slot(held).phase.start,
        to: slots::latest(0, held),
    }
}

// Whether the ones have ended when any of the others starts, or the other way round.
fn are_apart(one: &[Slot], two: &[Slot]) -> bool
    ensures { IsTrue result ↔ (Before (phases_in one.now) (phases_in two.now) ⊎ Before (phases_in two.now) (phases_in one.now)) }
{
    are_before(one, two) || are_before(two, one)
}

// The number of the first request of a group.
fn first_request(group: &Placed) -> u64
    ensures { result ≡ first_id group.now.members }
{
    group.members().members()[0].id
}

fn without_turn(timing: &Timing, group: &Placed, other: &Placed) -> Option<Breach>
    ensures none { IsNone result ↔ TakeTurns timing.now group.now other.now }
    ensures about { IfSome result (λ b. condition_of b ≡ takes_turns) }
    ensures told { (p : Problem) (s : Schedule) → p.timing ≡ timing.now → AreTwo s.groups group.now other.now → IfSome result (Tells p s) }
{
    if group.members().lun() != other.members().lun() {
        return None;
    }
    let one = slots_of(timing, group);
    let two = slots_of(timing, other);
    let (one, two) = (one.as_slice(), two.as_slice());
    if are_apart(one, two) {
        return None;
    }
    if first_slot(one).phase.start < first_slot(two).phase.start {
        return Some(report_taken_lun(two, first_request(group), one));
    }
    Some(report_taken_lun(one, first_request(other), two))
}

fn without_turn_among(timing: &Timing, group: &Placed, others: &[Placed]) -> Option<Breach>
    ensures none { IsNone result ↔ Each (TakeTurns timing.now group.now) others.now }
    ensures about { IfSome result (λ b. condition_of b ≡ takes_turns) }
    ensures told { (p : Problem) (s : Schedule) → p.timing ≡ timing.now → ((h : PlacedGroup) → Has others.now h → AreTwo s.groups group.now h) → IfSome result (Tells p s) }
{
    for other in others {
        let breach = without_turn(timing, group, other);
        if breach.is_some() {
            return breach;
        }
    }
    None
}

/// A group that starts while another one has its LUN.
pub(crate) fn lun_taken(timing: &Timing, groups: &[Placed]) -> Option<Breach>
    ensures none { IsNone result ↔ Pairs (TakeTurns timing.now) groups.now }
    ensures about { IfSome result (λ b. condition_of b ≡ takes_turns) }
    ensures told { (p : Problem) (s : Schedule) → p.timing ≡ timing.now → s.groups ≡ groups.now → IfSome result (Tells p s) }
{
    for (at, group) in groups.iter().enumerate() {
        let breach = without_turn_among(timing, group, &groups[at + 1..]);
        if breach.is_some() {
            return breach;
        }
    }
    None
}
