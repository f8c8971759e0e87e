//! What stands after a phase, in place of what stood before it.
ghost use Rattle.std.specs.Prelude.{◌≡◌, ◌↔◌, ◌++◌, ◌<◌, ◌≤◌, drop, length, map, take, IfOk, IfErr, IfSome, IsTrue};
ghost use Rattle.onfi_flight.specs.Flight.{IsDue, after_late};
ghost use Rattle.onfi_problem.specs.Left.{InLimits};
ghost use Rattle.onfi_problem.specs.Problem.{HasLengths};
ghost use Rattle.onfi_calls.specs.Ran.{GivesRan, IsLate, IsNotRan, IsRan, Kept, kept_behind};
ghost use Rattle.onfi_calls.specs.Ran as spec;
ghost use Rattle.onfi_calls.specs.Delay.{IsStep};
ghost use Rattle.onfi_calls.specs.Refused.{IsMeasured};
ghost use Rattle.onfi_calls.specs.Problem.{luns_of};
ghost use Rattle.onfi_calls.specs.PlainSchedule.{filled, written_want};
ghost use Rattle.onfi_calls.specs.declared.status.Status.TheVariants.{Clock};

use crate::channel::{PlainChannel, PlainLun, PlainWant};
use crate::delay::{delay_schedule, lun_after, wants_left};
use crate::flight::{fault_of, fill};
use crate::in_order::HALF;
use crate::least_due::due_in_order;
use crate::plain_schedule::{self, plain_want, plain_wants};
use crate::problem::{measure_few, rules};
use crate::schedule::PlainSchedule;
use crate::status::Status;
use arrayvec::ArrayVec;
use onfi_flight::{Due, Flight, Next};
use onfi_group::phase_length;
use onfi_problem::LunState;
use onfi_request::Want;
use onfi_timing::Timing;
use std::alloc::Global;

/// What stands after a phase.
#[derive(Drop)]
pub struct Behind {
    /// From when on the bus is free, in ns.
    pub bus_free: u64,
    /// What the LUN of the phase does.
    pub lun: PlainLun,
    /// The wants that wait.
    pub wants: ArrayVec<PlainWant, 8>,
    /// The phases that are left.
    pub schedule: PlainSchedule,
}

/// What stands where a LUN has no member.
pub const NO_WANT: PlainWant = PlainWant {
    id: 0,
    kind: 0,
    lun: 0,
    block: 0,
    page: 0,
};

/// The members of a group, as plain structs.
pub fn plain_members(wants: &[Want]) -> [PlainWant; 4]
    requires { length wants.now ≤ 4 }
    ensures { result ≡ filled 4 spec.no_want (map written_want wants.now) }
{
    let mut all = [NO_WANT; 4];
    for (at, want) in wants.iter().enumerate() {
        all[at] = plain_want(want);
    }
    all
}

/// The LUN as it names its group: as before, or with the group that the due phase begins.
pub fn name_group(luns: &[PlainLun], due: &Due) -> PlainLun
    requires { due.now.lun < length luns.now }
    ensures { result ≡ spec.telling luns.now due.now.place due.now.lun due.now.group }
{
    if due.place.is_none() {
        return luns[usize::from(due.lun)];
    }
    PlainLun {
        since: 0,
        members: due.group.len() as u8,
        next: 0,
        member: plain_members(due.group.members()),
    }
}

/// A LUN that names its group so, once it does this.
pub fn lun_in(state: &LunState, lun: &PlainLun) -> PlainLun
    ensures { result ≡ spec.lun_in state.now lun.now }
{
    match state {
        LunState::Running { next, ready, .. } => PlainLun {
            since: *ready,
            members: lun.members,
            next: *next,
            member: lun.member,
        },
        LunState::Free { since } => PlainLun {
            since: *since,
            members: 0,
            next: 0,
            member: lun.member,
        },
    }
}

/// What is left after a phase, as plain structs.
fn stand_after(flight: &Flight, luns: &[PlainLun], due: &Due) -> Behind
    requires there { due.now.lun < length luns.now }
    requires same { length flight.now.now.luns ≡ length luns.now }
    requires few { length flight.now.left.rest ≤ 8 }
    ensures { spec.IsBehind luns.now due.now flight.now result }
{
    let state = &flight.luns()[usize::from(due.lun)];
    Behind {
        bus_free: flight.bus_free(),
        lun: lun_in(state, &name_group(luns, due)),
        wants: plain_wants(flight.wants()),
        schedule: plain_schedule::schedule(flight.left()),
    }
}

/// Has the due phase run from then on, unless what is left is too late then.
fn run_late(alloc: Global, flight: &mut Flight, due: &Due, started: u64) -> Result<(), Status>
    requires due { IsDue flight.old due.now }
    requires on_time { due.now.start ≤ started }
    ensures ran { IfOk result (λ _. flight.new ≡ after_late flight.old due.now started) }
    ensures limits { IfOk result (λ _. InLimits flight.new.now) }
    ensures late { InLimits flight.old.now → HasLengths flight.old.now → IfErr result (λ status. (status ≡ Clock) × IsLate flight.old due.now started) }
{
    if flight.run_late(alloc, due, started).is_err() {
        return Err(Status::Clock);
    }
    match fault_of(flight, flight.wants()) {
        Some(_) => Err(Status::Clock),
        None => Ok(()),
    }
}

/// Whether the due phase is of that LUN and has that number.
pub fn is_due(due: &Due, lun: u8, number: u8) -> bool
    ensures { IsTrue result ↔ ((due.now.lun ≡ lun) × (due.now.phase ≡ number)) }
{
    due.lun == lun && due.phase == number
}

/// What stands after the phase that is due of what is said, with these lengths of all that is put out, if it is this one.
fn run_said(
    alloc: Global,
    timing: &Timing,
    channel: &PlainChannel,
    wants: &[PlainWant],
    schedule: &PlainSchedule,
    lun: u8,
    number: u8,
    started: u64,
) -> Result<Behind, Status>
    requires measured { IsMeasured channel.now wants.now timing.now }
    requires few { length wants.now ≤ 8 }
    ensures ran { let old : Kept = record { channel = channel.now; wants = wants.now; schedule = schedule.now } in
        IfOk result (λ b. IsRan old (kept_behind old lun b) lun number started) }
    ensures there { IfOk result (λ b. lun < length (luns_of channel.now)) }
    ensures fewer { IfOk result (λ b. length b.wants.items ≤ length wants.now) }
    ensures none { let old : Kept = record { channel = channel.now; wants = wants.now; schedule = schedule.now } in
        IfErr result (IsNotRan old lun number started) }
{
    let rules = rules(&channel.rules);
    let mut flight = Flight::idle(alloc, *timing, rules, channel.bus_free, channel.lun_count);
    match fill(alloc, &mut flight, channel, wants, schedule) {
        Ok(()) => {}
        Err(status) => return Err(status),
    }
    let due = match flight.due() {
        Next::Due(due) => due,
        Next::Done => return Err(Status::NothingDue),
        Next::Illegal => return Err(Status::Illegal),
    };
    if !is_due(&due, lun, number) {
        return Err(Status::NotDue);
    }
    if started < due.start {
        return Err(Status::TooSoon);
    }
    let luns = &channel.lun[..channel.lun_count as usize];
    match run_late(alloc, &mut flight, &due, started) {
        Ok(()) => Ok(stand_after(&flight, luns, &due)),
        Err(status) => Err(status),
    }
}

/// Puts wants in front of what stands there.
fn put(room: &mut [PlainWant; 8], wants: &[PlainWant])
    requires { length wants.now ≤ 8 }
    ensures { room.new ≡ wants.now ++ drop (length wants.now) room.old }
{
    room[..wants.len()].copy_from_slice(wants);
}

/// A phase that is due, when it ends, in ns, and what its LUN says then.
#[derive(Drop)]
struct Step {
    due: Due,
    ended: u64,
    lun: PlainLun,
}

/// The phase that is due of what is said, with these lengths of all that is put out, if it is this one, where all is in order,
/// and so it is once this one ran from then on.
fn step_in_order(
    alloc: Global,
    timing: &Timing,
    channel: &PlainChannel,
    wants: &[PlainWant],
    schedule: &PlainSchedule,
    lun: u8,
    number: u8,
    started: u64,
) -> Option<Step>
    requires measured { IsMeasured channel.now wants.now timing.now }
    requires few { length wants.now ≤ 8 }
    ensures { IfSome result (IsStep channel.now wants.now schedule.now lun number started) }
{
    let rules = rules(&channel.rules);
    let due = due_in_order(alloc, &rules, timing, channel, wants, schedule)?;
    if !is_due(&due, lun, number) || started < due.start || started >= HALF {
        return None;
    }
    let ended = started + phase_length(timing, due.group.members(), usize::from(due.phase));
    let luns = &channel.lun[..channel.lun_count as usize];
    let lun = lun_after(timing, luns, &due, ended);
    Some(Step { due, ended, lun })
}

/// Has all that is said, with these lengths of all that is put out, be what stands after the phase that is due: a flight is made
/// of it.
// What comes of it has some thousand bytes, which a caller whose phase is in order need not clear.
#[inline(never)]
fn run_in_flight(
    alloc: Global,
    timing: &Timing,
    channel: &mut PlainChannel,
    wants: &mut [PlainWant; 8],
    count: &mut usize,
    schedule: &mut PlainSchedule,
    lun: u8,
    number: u8,
    started: u64,
) -> u32
    requires few { count.old ≤ 8 }
    requires measured { IsMeasured channel.old (take count.old wants.old) timing.now }
    ensures { GivesRan
        (record { channel = channel.old; wants = take count.old wants.old; schedule = schedule.old })
        (record { channel = channel.new; wants = take count.new wants.new; schedule = schedule.new })
        wants.old wants.new count.old count.new lun number started result }
{
    let waiting = &wants[..*count];
    match run_said(
        alloc, timing, channel, waiting, schedule, lun, number, started,
    ) {
        Ok(behind) => {
            channel.bus_free = behind.bus_free;
            channel.lun[usize::from(lun)] = behind.lun;
            *count = behind.wants.len();
            put(wants, behind.wants.as_slice());
            *schedule = behind.schedule;
            0
        }
        Err(status) => status.number(),
    }
}

/// The same, made where it is said if it is in order.
fn run_due(
    alloc: Global,
    timing: &Timing,
    channel: &mut PlainChannel,
    wants: &mut [PlainWant; 8],
    count: &mut usize,
    schedule: &mut PlainSchedule,
    lun: u8,
    number: u8,
    started: u64,
) -> u32
    requires few { count.old ≤ 8 }
    requires measured { IsMeasured channel.old (take count.old wants.old) timing.now }
    ensures { GivesRan
        (record { channel = channel.old; wants = take count.old wants.old; schedule = schedule.old })
        (record { channel = channel.new; wants = take count.new wants.new; schedule = schedule.new })
        wants.old wants.new count.old count.new lun number started result }
{
    let waiting = &wants[..*count];
    if let Some(step) = step_in_order(
        alloc, timing, channel, waiting, schedule, lun, number, started,
    ) {
        let left = wants_left(&step.due, waiting);
        *schedule = delay_schedule(started - step.due.start, schedule, &step.due);
        channel.bus_free = step.ended;
        channel.lun[usize::from(lun)] = step.lun;
        *count = left.len();
        put(wants, left.as_slice());
        return 0;
    }
    run_in_flight(
        alloc, timing, channel, wants, count, schedule, lun, number, started,
    )
}

/// What stands after the phase that is due, once it ran from `started` on, in ns, at or after its start by the schedule:
/// the bus is free from its end, its LUN goes on or is free, a group that began has left the first `count` wants, which wait,
/// and the starts that are left are later by as much as it was. What is left of a legal schedule is legal; of another only
/// that phase is looked at. This asks for no memory.
///
/// Answers 0; or the first of the numbers that [`onfi_plan`](crate::plan::onfi_plan) answers for the channel, but for
/// `Memory`, and those of `BadSchedule`, of `Illegal` as [`onfi_due`](crate::due::onfi_due) answers it, of `NothingDue`, of
/// `NotDue` where LUN and number aren't those of the phase that is due, of `TooSoon`, and of `Clock` where a phase would start
/// at 2^62 ns or later, or what is left could reach 2^62 ns, so that each later call would refuse it; and all is as it was.
/// `TooMany` comes first where `count` is above 8.
pub fn onfi_ran(
    alloc: Global,
    channel: &mut PlainChannel,
    wants: &mut [PlainWant; 8],
    count: &mut usize,
    schedule: &mut PlainSchedule,
    lun: u8,
    number: u8,
    started: u64,
) -> u32
    ensures { GivesRan
        (record { channel = channel.old; wants = take count.old wants.old; schedule = schedule.old })
        (record { channel = channel.new; wants = take count.new wants.new; schedule = schedule.new })
        wants.old wants.new count.old count.new lun number started result }
{
    if *count > 8 {
        return Status::TooMany.number();
    }
    match measure_few(alloc, channel, &wants[..*count]) {
        Ok(timing) => run_due(
            alloc, &timing, channel, wants, count, schedule, lun, number, started,
        ),
        Err(status) => status.number(),
    }
}
