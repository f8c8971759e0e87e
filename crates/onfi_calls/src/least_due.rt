//! The phase of least start, where it may run, seen where it is said: only its own group is made.
ghost use Rattle.std.specs.Prelude.{◌≡◌, ◌≤◌, false, length, IfSome};
ghost use Rattle.std.specs.List.{list_any};
ghost use Rattle.onfi_timing.specs.declared.timing.Timing.{Timing as Lengths};
ghost use Rattle.onfi_flight.specs.Flight.{Flight, IsDue};
ghost use Rattle.onfi_flight.specs.Turns.{IsTurn};
ghost use Rattle.onfi_flight.specs.declared.turn.Turn.TheVariants as turn;
ghost use Rattle.onfi_calls.specs.Flights.{IsFlightSaid};
ghost use Rattle.onfi_calls.specs.InOrder.{AreEarly, IsFirst, flight_of, start_of};
ghost use Rattle.onfi_calls.specs.InOrder as order;
ghost use Rattle.onfi_calls.specs.Refused.{IsMeasured};
ghost use Rattle.onfi_calls.specs.Problem.{AreRules, has_bad_count, luns_of, states_of};

use crate::channel::{PlainChannel, PlainLun, PlainWant};
use crate::in_order::{HALF, is_in_order, is_odd_schedule};
use crate::least::{Least, Start, least_start};
use crate::problem::few_wants_of;
use crate::schedule::PlainSchedule;
use onfi_flight::{Due, is_startable};
use onfi_group::{Group, Rules};
use onfi_script::group_named;
use onfi_timing::Timing;
use std::alloc::Global;

/// The next phase of what runs on that LUN, if it may run then.
fn next_due(
    alloc: Global,
    rules: &Rules,
    bus_free: u64,
    luns: &[PlainLun],
    next: Start,
) -> Option<Due>
    requires counts { list_any has_bad_count luns.now ≡ false }
    requires few { length luns.now ≤ 8 }
    ensures { (f : Flight) → f.now.bus_free ≡ bus_free → f.now.luns ≡ states_of rules.now.plane_bits luns.now
        → IsTurn f.left.rest f.left.groups (turn.Next (start_of next)) → IfSome result (IsDue f) }
{
    let Some(lun) = luns.get(next.at) else {
        return None;
    };
    if lun.members == 0
        || lun.members > 4
        || next.time >= HALF
        || next.time < bus_free.max(lun.since)
    {
        return None;
    }
    let members = few_wants_of(rules.plane_bits, &lun.member[..usize::from(lun.members)]);
    if 2 * members.len() <= usize::from(lun.next) {
        return None;
    }
    Some(Due {
        start: next.time,
        group: Group::of(alloc, members.as_slice()),
        phase: lun.next,
        lun: next.at as u8,
        place: None,
    })
}

/// The first phase of the new group at that place, if it may run then.
fn first_due(
    alloc: Global,
    rules: &Rules,
    bus_free: u64,
    luns: &[PlainLun],
    wants: &[PlainWant],
    schedule: &PlainSchedule,
    first: Start,
) -> Option<Due>
    requires few { (length luns.now ≤ 8) × (length wants.now ≤ 8) }
    requires good { order.is_odd_schedule schedule.now ≡ false }
    ensures { (timing : Lengths) → IsFirst (flight_of timing rules.now bus_free luns.now wants.now schedule.now) first
        → IfSome result (IsDue (flight_of timing rules.now bus_free luns.now wants.now schedule.now)) }
{
    let Some(said) = schedule.group[..usize::from(schedule.groups)].get(first.at) else {
        return None;
    };
    if said.members == 0 || said.members > 4 || first.time >= HALF {
        return None;
    }
    let wants = few_wants_of(rules.plane_bits, wants);
    let group = group_named(
        alloc,
        wants.as_slice(),
        &said.want[..usize::from(said.members)],
    );
    let at = usize::from(group.lun());
    let Some(lun) = luns.get(at) else {
        return None;
    };
    if lun.members != 0 || first.time < bus_free.max(lun.since) {
        return None;
    }
    if at >= schedule.rest[..usize::from(schedule.luns)].len()
        || !is_startable(rules, wants.as_slice(), &group)
    {
        return None;
    }
    Some(Due {
        start: first.time,
        lun: at as u8,
        group,
        phase: 0,
        place: Some(first.at),
    })
}

/// The phase of least start, if one is left and may run, in the earlier half of the clock.
fn due_of(
    alloc: Global,
    rules: &Rules,
    bus_free: u64,
    luns: &[PlainLun],
    wants: &[PlainWant],
    schedule: &PlainSchedule,
) -> Option<Due>
    requires counts { list_any has_bad_count luns.now ≡ false }
    requires few { (length luns.now ≤ 8) × (length wants.now ≤ 8) }
    requires good { order.is_odd_schedule schedule.now ≡ false }
    ensures { (timing : Lengths) → IfSome result (IsDue (flight_of timing rules.now bus_free luns.now wants.now schedule.now)) }
{
    match least_start(schedule)? {
        Least::Next(next) => next_due(alloc, rules, bus_free, luns, next),
        Least::First(first) => first_due(alloc, rules, bus_free, luns, wants, schedule, first),
    }
}

/// The phase that is due of what is said, where all is in order and it is in the earlier half of the clock.
pub fn due_in_order(
    alloc: Global,
    rules: &Rules,
    timing: &Timing,
    channel: &PlainChannel,
    wants: &[PlainWant],
    schedule: &PlainSchedule,
) -> Option<Due>
    requires rules { AreRules channel.now.rules rules.now }
    requires measured { IsMeasured channel.now wants.now timing.now }
    requires few { length wants.now ≤ 8 }
    ensures said { IfSome result (λ _. IsFlightSaid channel.now wants.now schedule.now (flight_of timing.now rules.now channel.now.bus_free (luns_of channel.now) wants.now schedule.now)) }
    ensures due { IfSome result (IsDue (flight_of timing.now rules.now channel.now.bus_free (luns_of channel.now) wants.now schedule.now)) }
    ensures early { IfSome result (λ _. AreEarly (luns_of channel.now)) }
    ensures even { IfSome result (λ _. order.is_odd_schedule schedule.now ≡ false) }
{
    let luns = &channel.lun[..channel.lun_count as usize];
    if !is_in_order(rules, channel.bus_free, luns, wants) || is_odd_schedule(schedule) {
        return None;
    }
    due_of(alloc, rules, channel.bus_free, luns, wants, schedule)
}
