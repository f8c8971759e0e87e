//! What the due phase leaves, made of what is given where it stands.
ghost use Rattle.std.specs.Prelude.{◌≡◌, ◌==◌, ◌≤◌, ◌<◌, ◌+◌, ◌-◌, ◌*◌, ◌^◌, ◌++◌, ℕ, List, Some, false, drop, length, map};
ghost use Rattle.std.specs.List.{list_any};
ghost use Rattle.onfi_request.specs.declared.want.Want.{Want as AWant};
ghost use Rattle.onfi_problem.specs.Moves.{lun_after};
ghost use Rattle.onfi_flight.specs.Flight.{left_behind, starts_of as first_of};
ghost use Rattle.onfi_flight.specs.Times.{later, later_starts};
ghost use Rattle.onfi_calls.specs.declared.schedule.PlainGroup.{PlainGroup as AGroup};
ghost use Rattle.onfi_calls.specs.InOrder.{is_half, is_odd_group, is_odd_rest, is_odd_schedule};
ghost use Rattle.onfi_calls.specs.Delay as spec;
ghost use Rattle.onfi_calls.specs.Ran.{lun_in, telling};
ghost use Rattle.onfi_calls.specs.ReadSchedule.{groups_of, rest_of, rests_of, schedule_of, starts_of};
ghost use Rattle.onfi_calls.specs.PlainSchedule.{filled, no_group, no_rest, written_rest, written_schedule};

use crate::channel::{PlainLun, PlainWant};
use crate::plain_schedule::{NO_GROUP, NO_REST};
use crate::ran::name_group;
use crate::schedule::{PlainGroup, PlainRest, PlainSchedule};
use arrayvec::ArrayVec;
use onfi_flight::Due;
use onfi_group::{Group, wait_before};
use onfi_timing::Timing;

/// Starts later by that much, and 0 in the places past them.
fn delay_starts(by: u64, starts: &[u64]) -> [u64; 8]
    requires few { length starts.now ≤ 8 }
    requires early { list_any is_half starts.now ≡ false }
    requires less { by < 2 ^ 61 }
    ensures { result ≡ filled 8 0 (later_starts by starts.now) }
{
    let mut all = [0; 8];
    for (at, start) in starts.iter().enumerate() {
        all[at] = *start + by;
    }
    all
}

/// What is left of a running group, later by that much.
fn delay_rest(by: u64, starts: &[u64]) -> PlainRest
    requires few { length starts.now ≤ 8 }
    requires early { list_any is_half starts.now ≡ false }
    requires less { by < 2 ^ 61 }
    ensures { result ≡ written_rest (later_starts by starts.now) }
{
    PlainRest {
        starts: starts.len() as u8,
        start: delay_starts(by, starts),
    }
}

/// The starts of what is left of a running group.
fn starts_left<'a>(rest: &'a PlainRest) -> &'a [u64]
    requires { is_odd_rest rest.now ≡ false }
    ensures value { result.now ≡ rest_of rest.now }
    ensures few { length result.now ≤ 8 }
    ensures early { list_any is_half result.now ≡ false }
{
    &rest.start[..usize::from(rest.starts)]
}

/// The starts of a new group.
fn starts_in<'a>(group: &'a PlainGroup) -> &'a [u64]
    requires { is_odd_group group.now ≡ false }
    ensures value { result.now ≡ starts_of group.now }
    ensures few { length result.now ≤ 8 }
    ensures early { list_any is_half result.now ≡ false }
{
    &group.start[..2 * usize::from(group.members)]
}

/// What is left of what is given of one running group, later by that much.
fn delay_one(by: u64, rest: &PlainRest) -> PlainRest
    requires good { is_odd_rest rest.now ≡ false }
    requires less { by < 2 ^ 61 }
    ensures { result ≡ spec.later_rest by rest.now }
{
    delay_rest(by, starts_left(rest))
}

/// The same of starts but the first.
fn delay_after_first(by: u64, starts: &[u64]) -> PlainRest
    requires few { length starts.now ≤ 8 }
    requires early { list_any is_half starts.now ≡ false }
    requires less { by < 2 ^ 61 }
    ensures { result ≡ written_rest (later_starts by (drop 1 starts.now)) }
{
    if starts.is_empty() {
        return NO_REST;
    }
    delay_rest(by, &starts[1..])
}

/// The numbers of a group's members, and 0 in the places past them.
fn fill_numbers(numbers: &[u64]) -> [u64; 4]
    requires { length numbers.now ≤ 4 }
    ensures { result ≡ filled 4 0 numbers.now }
{
    let mut all = [0; 4];
    all[..numbers.len()].copy_from_slice(numbers);
    all
}

/// A new group, later by that much.
fn delay_group(by: u64, said: &PlainGroup) -> PlainGroup
    requires good { is_odd_group said.now ≡ false }
    requires less { by < 2 ^ 61 }
    ensures { (wants : List AWant) → result ≡ spec.later_said by wants said.now }
{
    let numbers = &said.want[..usize::from(said.members)];
    PlainGroup {
        members: numbers.len() as u8,
        want: fill_numbers(numbers),
        start: delay_starts(by, starts_in(said)),
    }
}

/// What is left of running groups, later by that much, and nothing in the places past them.
fn delay_rests(by: u64, said: &[PlainRest]) -> [PlainRest; 8]
    requires few { length said.now ≤ 8 }
    requires good { list_any is_odd_rest said.now ≡ false }
    requires less { by < 2 ^ 61 }
    ensures { result ≡ filled 8 no_rest (map (spec.later_rest by) said.now) }
{
    let mut all = [NO_REST; 8];
    for (at, rest) in said.iter().enumerate() {
        all[at] = delay_one(by, rest);
    }
    all
}

/// Puts new groups from that place on, later by that much.
fn put_groups(all: &mut [PlainGroup; 8], from: usize, by: u64, said: &[PlainGroup])
    requires few { from + length said.now ≤ 8 }
    requires good { list_any is_odd_group said.now ≡ false }
    requires less { by < 2 ^ 61 }
    ensures { (wants : List AWant) (front : List AGroup) → length front ≡ from → all.old ≡ filled 8 no_group front
        → all.new ≡ filled 8 no_group (front ++ map (spec.later_said by wants) said.now) }
{
    for (at, group) in said.iter().enumerate() {
        all[from + at] = delay_group(by, group);
    }
}

/// New groups but the one at that place, later by that much, and none in the places past them.
fn delay_groups(by: u64, said: &[PlainGroup], place: Option<usize>) -> [PlainGroup; 8]
    requires few { length said.now ≤ 8 }
    requires place { (at : ℕ) → place ≡ Some at → at < length said.now }
    requires good { list_any is_odd_group said.now ≡ false }
    requires less { by < 2 ^ 61 }
    ensures { (wants : List AWant) → result ≡ filled 8 no_group (map (spec.later_said by wants) (spec.others place said.now)) }
{
    let mut all = [NO_GROUP; 8];
    match place {
        None => put_groups(&mut all, 0, by, said),
        Some(at) => {
            put_groups(&mut all, 0, by, &said[..at]);
            put_groups(&mut all, at, by, &said[at + 1..]);
        }
    }
    all
}

/// How many new groups are left but the one at that place.
fn count_left(said: &[PlainGroup], place: Option<usize>) -> u8
    requires few { length said.now ≤ 8 }
    requires place { (at : ℕ) → place ≡ Some at → at < length said.now }
    ensures { result ≡ length (spec.others place said.now) }
{
    match place {
        None => said.len() as u8,
        Some(_) => (said.len() - 1) as u8,
    }
}

/// The starts that the due phase is the first of.
fn starts_due<'a>(rest: &'a [PlainRest], groups: &'a [PlainGroup], due: &Due) -> &'a [u64]
    requires rest { list_any is_odd_rest rest.now ≡ false }
    requires groups { list_any is_odd_group groups.now ≡ false }
    requires lun { due.now.lun < length rest.now }
    requires place { (at : ℕ) → due.now.place ≡ Some at → at < length groups.now }
    ensures value { (wants : List AWant) → result.now ≡ first_of (spec.said_by wants rest.now groups.now) due.now.lun due.now.place }
    ensures few { length result.now ≤ 8 }
    ensures early { list_any is_half result.now ≡ false }
{
    match due.place {
        None => starts_left(&rest[usize::from(due.lun)]),
        Some(at) => starts_in(&groups[at]),
    }
}

/// What is left of running groups once the due phase ran, later by that much, and nothing in the places past them.
fn delay_left(by: u64, said: &[PlainRest], groups: &[PlainGroup], due: &Due) -> [PlainRest; 8]
    requires few { length said.now ≤ 8 }
    requires rest { list_any is_odd_rest said.now ≡ false }
    requires groups { list_any is_odd_group groups.now ≡ false }
    requires less { by < 2 ^ 61 }
    requires lun { due.now.lun < length said.now }
    requires place { (at : ℕ) → due.now.place ≡ Some at → at < length groups.now }
    ensures { (wants : List AWant) → result ≡ spec.written_rests by (left_behind (spec.said_by wants said.now groups.now) due.now) }
{
    let mut rest = delay_rests(by, said);
    rest[usize::from(due.lun)] = delay_after_first(by, starts_due(said, groups, due));
    rest
}

/// The schedule that is said so without the due phase, later by that much.
fn delay_said(by: u64, rest: &[PlainRest], groups: &[PlainGroup], due: &Due) -> PlainSchedule
    requires few { (length rest.now ≤ 8) × (length groups.now ≤ 8) }
    requires rest { list_any is_odd_rest rest.now ≡ false }
    requires groups { list_any is_odd_group groups.now ≡ false }
    requires less { by < 2 ^ 61 }
    requires lun { due.now.lun < length rest.now }
    requires place { (at : ℕ) → due.now.place ≡ Some at → at < length groups.now }
    ensures { (wants : List AWant) → result ≡ written_schedule (later by (left_behind (spec.said_by wants rest.now groups.now) due.now)) }
{
    PlainSchedule {
        luns: rest.len() as u8,
        groups: count_left(groups, due.place),
        rest: delay_left(by, rest, groups, due),
        group: delay_groups(by, groups, due.place),
    }
}

/// The schedule without the due phase, later by that much.
pub fn delay_schedule(by: u64, said: &PlainSchedule, due: &Due) -> PlainSchedule
    requires good { is_odd_schedule said.now ≡ false }
    requires less { by < 2 ^ 61 }
    requires lun { due.now.lun < length (rests_of said.now) }
    requires place { (at : ℕ) → due.now.place ≡ Some at → at < length (groups_of said.now) }
    ensures { (wants : List AWant) → result ≡ written_schedule (later by (left_behind (schedule_of wants said.now) due.now)) }
{
    delay_said(
        by,
        &said.rest[..usize::from(said.luns)],
        &said.group[..usize::from(said.groups)],
        due,
    )
}

/// Whether a member of the group has that number.
fn has_id(group: &Group, id: u64) -> bool
    ensures { result ≡ list_any (λ m. m.id == id) group.now }
{
    group.members().iter().any(|member| member.id == id)
}

/// The wants that aren't in the group.
fn wants_without(group: &Group, wants: &[PlainWant]) -> ArrayVec<PlainWant, 8>
    requires { length wants.now ≤ 8 }
    ensures { result.items ≡ spec.plain_without group.now wants.now }
{
    let mut left = ArrayVec::new();
    for want in wants {
        if !has_id(group, want.id) {
            left.push(*want);
        }
    }
    left
}

/// The wants that are left: those of a group that begins leave.
pub fn wants_left(due: &Due, wants: &[PlainWant]) -> ArrayVec<PlainWant, 8>
    requires { length wants.now ≤ 8 }
    ensures { result.items ≡ spec.plain_behind due.now.place due.now.group wants.now }
{
    match due.place {
        Some(_) => wants_without(&due.group, wants),
        None => ArrayVec::try_from(wants).unwrap(),
    }
}

/// What the LUN of the due phase says once that has ended: it goes on with its group, or is free.
pub fn lun_after(timing: &Timing, luns: &[PlainLun], due: &Due, ended: u64) -> PlainLun
    requires there { due.now.lun < length luns.now }
    requires within { due.now.phase < 2 * length due.now.group }
    requires ended { ended < 2 ^ 62 }
    ensures { result ≡ lun_in (lun_after timing.now due.now.group due.now.phase ended) (telling luns.now due.now.place due.now.lun due.now.group) }
{
    let lun = name_group(luns, due);
    let member = lun.member;
    let (members, next) = (due.group.len(), usize::from(due.phase) + 1);
    if next >= 2 * members {
        return PlainLun {
            since: ended,
            members: 0,
            next: 0,
            member,
        };
    }
    let wait = wait_before(timing, due.group.members(), next);
    PlainLun {
        since: ended + wait,
        members: lun.members,
        next: next as u8,
        member,
    }
}
