//! Which condition of a legal schedule one that plain structs say breaks.
ghost use Rattle.std.specs.Prelude.{◌≡◌, IfNone, IfSome};
ghost use Rattle.onfi_schedule.specs.Schedule.{Legal};
ghost use Rattle.onfi_calls.specs.Broken as spec;

use crate::channel::{PlainChannel, PlainLun, PlainWant};
use crate::schedule::PlainSchedule;
use crate::stand::{Stand, read_stand};
use crate::status::Status;
use onfi_schedule::{Breach, Difference, Owner, Part, PhaseName, find_breach};
use std::alloc::Global;

/// A phase by its name: of the request `want`, or of the member on `block` of what runs on `lun`; 0 its command, 1 its data output,
/// 2 its status.
#[repr(C)]
#[derive(Clone, Copy)]
pub struct PlainNamed {
    pub want: u64,
    pub block: u16,
    pub lun: u8,
    pub part: u8,
    pub is_running: bool,
}

/// The condition that a schedule breaks, by the place of its kind among those of [`Breach`], from 1; 0 where it breaks none. What it
/// says of requests, phases and LUNs stands where the header says; all else is 0. Times are ns.
#[repr(C)]
#[derive(Clone, Copy)]
pub struct PlainBroken {
    pub phase: PlainNamed,
    pub other: PlainNamed,
    pub want: u64,
    pub other_want: u64,
    pub start: u64,
    pub earliest: u64,
    pub held: u64,
    pub count: u64,
    pub right: u64,
    pub condition: u8,
    pub lun: u8,
    pub difference: u8,
}

/// The name of no phase.
const NO_NAME: PlainNamed = PlainNamed {
    want: 0,
    block: 0,
    lun: 0,
    part: 0,
    is_running: false,
};

/// What is reported where no condition is broken.
const UNBROKEN: PlainBroken = PlainBroken {
    phase: NO_NAME,
    other: NO_NAME,
    want: 0,
    other_want: 0,
    start: 0,
    earliest: 0,
    held: 0,
    count: 0,
    right: 0,
    condition: 0,
    lun: 0,
    difference: 0,
};

/// A phase by its name.
fn plain_name(name: PhaseName) -> PlainNamed
    ensures { result ≡ spec.written_name name }
{
    let part = match name.part {
        Part::Command => 0,
        Part::DataOutput => 1,
        Part::Status => 2,
    };
    match name.owner {
        Owner::Request(want) => PlainNamed {
            want,
            part,
            ..NO_NAME
        },
        Owner::Running { lun, block } => PlainNamed {
            want: 0,
            block,
            lun,
            part,
            is_running: true,
        },
    }
}

/// A phase that starts before it could.
fn too_soon(condition: u8, name: PhaseName, lun: u8, start: u64, earliest: u64) -> PlainBroken
    ensures { result ≡ spec.too_soon condition name lun start earliest }
{
    PlainBroken {
        condition,
        phase: plain_name(name),
        lun,
        start,
        earliest,
        ..UNBROKEN
    }
}

/// A LUN, or a request, of which there is one number in place of another.
fn count_broken(condition: u8, lun: u8, want: u64, count: usize, right: usize) -> PlainBroken
    ensures { result ≡ spec.counted condition lun want count right }
{
    PlainBroken {
        condition,
        lun,
        want,
        count: count as u64,
        right: right as u64,
        ..UNBROKEN
    }
}

/// A request beside another one.
fn pair_requests(condition: u8, other_want: u64, want: u64, difference: u8) -> PlainBroken
    ensures { result ≡ spec.paired condition other_want want difference }
{
    PlainBroken {
        condition,
        want,
        other_want,
        difference,
        ..UNBROKEN
    }
}

/// In what two members of a group differ.
fn difference_number(difference: Difference) -> u8
    ensures { result ≡ spec.difference_number difference }
{
    match difference {
        Difference::Kind => 1,
        Difference::Lun => 2,
        Difference::Page => 3,
        Difference::Block => 4,
    }
}

/// That something is in the way of a phase or a request.
fn in_the_way(breach: Breach) -> PlainBroken
    ensures { result ≡ spec.in_the_way breach }
{
    match breach {
        Breach::Overlap {
            phase,
            start,
            holder,
            from,
            to,
        } => PlainBroken {
            other: plain_name(holder),
            held: from,
            ..too_soon(13, phase, 0, start, to)
        },
        Breach::LunTaken {
            phase,
            lun,
            start,
            holder,
            from,
            to,
        } => PlainBroken {
            other_want: holder,
            held: from,
            ..too_soon(17, phase, lun, start, to)
        },
        Breach::BlockOrder {
            earlier,
            later,
            start,
            end,
        } => PlainBroken {
            start,
            earliest: end,
            ..pair_requests(19, earlier, later, 0)
        },
        _ => UNBROKEN,
    }
}

/// That the bus or a LUN isn't free or ready, or something is in the way.
fn time_broken(breach: Breach) -> PlainBroken
    ensures { result ≡ spec.timed breach }
{
    match breach {
        Breach::BusNotFree {
            phase,
            start,
            bus_free,
        } => too_soon(12, phase, 0, start, bus_free),
        Breach::NotReady {
            phase,
            lun,
            start,
            ready,
        } => too_soon(14, phase, lun, start, ready),
        Breach::RunningGroupLeft {
            phase,
            lun,
            start,
            end,
        } => too_soon(16, phase, lun, start, end),
        Breach::LunNotFree {
            phase,
            lun,
            start,
            since,
        } => too_soon(18, phase, lun, start, since),
        _ => in_the_way(breach),
    }
}

/// That a phase starts too soon after the one before it in its group, or any condition of times.
fn wait_broken(breach: Breach) -> PlainBroken
    ensures { result ≡ spec.waited breach }
{
    match breach {
        Breach::WaitTooShort {
            phase,
            before,
            lun,
            start,
            ready,
        } => PlainBroken {
            other: plain_name(before),
            ..too_soon(15, phase, lun, start, ready)
        },
        _ => time_broken(breach),
    }
}

/// Any condition.
fn plain_breach(breach: Breach) -> PlainBroken
    requires { spec.IsNear breach }
    ensures { result ≡ spec.written_breach breach }
{
    match breach {
        Breach::ForeignLun { last } => count_broken(1, last as u8, 0, 0, 0),
        Breach::MissingLun { lun } => count_broken(2, lun as u8, 0, 0, 0),
        Breach::RestOfFreeLun { lun } => count_broken(3, lun, 0, 0, 0),
        Breach::RestCount { lun, starts, left } => count_broken(4, lun, 0, starts, left),
        Breach::StartCount {
            request,
            starts,
            phases,
        } => count_broken(5, 0, request, starts, phases),
        Breach::UnknownRequest { request } => count_broken(6, 0, request, 0, 0),
        Breach::MissingRequest { request } => count_broken(7, 0, request, 0, 0),
        Breach::RepeatedRequest { request, times } => count_broken(8, 0, request, times, 0),
        Breach::MixedGroup {
            first,
            request,
            difference,
        } => { pair_requests(9, first, request, difference_number(difference)) }
        Breach::SinglePlane { first, request } => pair_requests(10, first, request, 0),
        Breach::PlaneOrder { before, request } => pair_requests(11, before, request, 0),
        Breach::BusNotFree { .. }
        | Breach::Overlap { .. }
        | Breach::NotReady { .. }
        | Breach::WaitTooShort { .. }
        | Breach::RunningGroupLeft { .. }
        | Breach::LunTaken { .. }
        | Breach::LunNotFree { .. }
        | Breach::BlockOrder { .. } => wait_broken(breach),
    }
}

/// The condition that a schedule breaks, if it breaks one.
fn find_broken(stand: &Stand) -> Option<PlainBroken>
    ensures some { IfSome result (λ b. spec.IsBroken stand.now.problem.problem stand.now.schedule b) }
    ensures none { IfNone result (Legal stand.now.problem.problem stand.now.schedule) }
{
    let _bus_free = stand.problem.bus_free();
    match find_breach(&stand.problem, &stand.schedule) {
        Some(breach) => Some(plain_breach(breach)),
        None => None,
    }
}

/// Gives the condition that is broken, or that none is.
fn give_broken(stand: &Stand, broken: &mut PlainBroken) -> u32
    ensures { spec.IsJudged stand.now.problem.problem stand.now.schedule broken.new result }
{
    match find_broken(stand) {
        Some(breach) => {
            *broken = breach;
            Status::Illegal.number()
        }
        None => {
            *broken = UNBROKEN;
            0
        }
    }
}

/// Whether a schedule of a channel's wants is legal, and else the first condition that it breaks, as
/// [`find_breach`](onfi_schedule::find_breach) looks at them. No certificate is looked at.
///
/// Answers 0 where it is legal; the number of `Illegal` where it isn't, with the condition; else the first of the numbers that
/// [`onfi_plan`](crate::plan::onfi_plan) answers for the channel, or that of `BadSchedule`, and what is broken is as it was.
pub fn onfi_breach(
    alloc: Global,
    channel: &PlainChannel,
    wants: &[PlainWant],
    schedule: &PlainSchedule,
    broken: &mut PlainBroken,
) -> u32
    ensures { spec.GivesBreach channel.now wants.now schedule.now broken.old broken.new result }
{
    match read_stand(alloc, channel, wants, schedule) {
        Ok(stand) => give_broken(&stand, broken),
        Err(status) => status.number(),
    }
}
