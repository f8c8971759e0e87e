//! The phase that is due.
ghost use Rattle.std.specs.Prelude.{◌≡◌, ℕ, List, ◌*◌, ◌<◌, ◌≤◌, ◌^◌, length, IfOk, IfErr, IfNone, IfSome};
ghost use Rattle.onfi_calls.specs.Due.{GivesDue, IsDueSaid, IsNoneDue, IsOffDevice, IsOnDevice, IsOutside, IsOverTold, IsWritten, closer_of as spec_closer_of, number_of_kind, opener_of as spec_opener_of};
ghost use Rattle.onfi_request.specs.declared.want.Want.{Want as AnyWant};
ghost use Rattle.onfi_timing.specs.declared.timing.Timing.{Timing as AnyTiming};
ghost use Rattle.onfi_steady.specs.LunBooks.{IsGroupPhase};
ghost use Rattle.onfi_calls.specs.Refused.{IsMeasured};

use crate::channel::{PlainChannel, PlainWant};
use crate::device::PlainGeometry;
use crate::flight::fill;
use crate::geometry::geometry_of;
use crate::least_due::due_in_order;
use crate::phase::PlainPhase;
use crate::problem::{measure_few, rules};
use crate::row::row_in;
use crate::schedule::PlainSchedule;
use crate::status::Status;
use onfi_addr::{Geometry, Place};
use onfi_flight::{Due, Flight, Next};
use onfi_group::phase_length;
use onfi_steady::GroupPhase;
use onfi_timing::{Kind, Operation, Timing};
use std::alloc::Global;

/// The number of a kind: of its operation, and above it how many sectors a read puts out.
pub fn kind_number(kind: Kind) -> u8
    ensures { result ≡ number_of_kind kind }
{
    match kind {
        Kind::Read => 0,
        Kind::Program => 1,
        Kind::Erase => 2,
        Kind::ReadSectors { count, .. } => count % 8 * 32,
    }
}

/// The first command byte (ONFI 4.2, command definition).
fn opener_of(operation: Operation, is_post: bool) -> u8
    ensures { result ≡ spec_opener_of operation is_post }
{
    match (is_post, operation) {
        (false, Operation::Read) => 0x00,
        (false, Operation::Program) => 0x80,
        (false, Operation::Erase) => 0x60,
        (true, Operation::Read) => 0x06,
        (true, _) => 0x78,
    }
}

/// The last command byte, 0 where there is none.
fn closer_of(operation: Operation, is_post: bool, is_last: bool) -> u8
    ensures { result ≡ spec_closer_of operation is_post is_last }
{
    match (is_post, operation) {
        (false, Operation::Read) => if is_last { 0x30 } else { 0x32 },
        (false, Operation::Program) => if is_last { 0x10 } else { 0x11 },
        (false, Operation::Erase) => if is_last { 0xD0 } else { 0xD1 },
        (true, Operation::Read) => 0xE0,
        (true, _) => 0x00,
    }
}

/// A phase of a group that starts then, as a plain struct; none where the device doesn't have its page.
pub fn plain_phase(geometry: &Geometry, start: u64, phase: &GroupPhase) -> Option<PlainPhase>
    requires time { start < 2 ^ 63 }
    requires short { phase.now.length < 2 ^ 50 }
    requires few { phase.now.members ≤ 4 }
    requires within { phase.now.number < 2 * phase.now.members }
    ensures some { (timing : AnyTiming) (group : List AnyWant) (number : ℕ) → IsGroupPhase timing group number phase.now
        → IfSome result (IsWritten timing geometry.now group start number) }
    ensures none { (timing : AnyTiming) (group : List AnyWant) (number : ℕ) → IsGroupPhase timing group number phase.now → IfNone result (IsOutside geometry.now group number) }
{
    let place = Place {
        lun: phase.want.lun,
        block: phase.want.block,
        page: phase.want.page,
    };
    if !geometry.is_in_range(&place) {
        return None;
    }
    let is_post = phase.members <= phase.number;
    let operation = phase.want.kind.operation();
    Some(PlainPhase {
        start,
        end: start + phase.length,
        want: phase.want.id,
        row: row_in(geometry, &place),
        block: phase.want.block,
        page: phase.want.page,
        lun: phase.want.lun,
        kind: kind_number(phase.want.kind),
        number: phase.number,
        members: phase.members,
        opener: opener_of(operation, is_post),
        closer: closer_of(operation, is_post, phase.number + 1 == phase.members),
        row_cycles: geometry.row_address_cycles,
        is_post,
    })
}

/// The phase that is due, as a plain struct; none where the device doesn't have its page.
fn phase_of(timing: &Timing, geometry: &Geometry, due: &Due) -> Option<PlainPhase>
    requires within { due.now.phase < 2 * length due.now.group }
    requires time { due.now.start < 2 ^ 63 }
    ensures some { IfSome result (λ phase. IsWritten timing.now geometry.now due.now.group due.now.start due.now.phase phase) }
    ensures none { IfNone result (IsOutside geometry.now due.now.group due.now.phase) }
{
    let number = usize::from(due.phase);
    let phase = GroupPhase {
        want: *due.member(),
        length: phase_length(timing, due.group.members(), number),
        number: due.phase,
        members: due.group.len() as u8,
    };
    plain_phase(geometry, due.start, &phase)
}

/// The phase that is due, on the device that is said.
pub fn phase_on(timing: &Timing, geometry: &PlainGeometry, due: &Due) -> Result<PlainPhase, Status>
    requires within { due.now.phase < 2 * length due.now.group }
    requires time { due.now.start < 2 ^ 63 }
    ensures phase { IfOk result (λ phase. IsOnDevice timing.now geometry.now due.now phase) }
    ensures none { IfErr result (λ status. IsOffDevice geometry.now due.now status) }
{
    let Some(geometry) = geometry_of(geometry) else {
        return Err(Status::BadGeometry);
    };
    match phase_of(timing, &geometry, due) {
        Some(phase) => Ok(phase),
        None => Err(Status::BadPlace),
    }
}

/// What is answered where nothing is left to do.
pub fn over_status(geometry: &PlainGeometry) -> Status
    ensures { IsOverTold geometry.now result }
{
    match geometry_of(geometry) {
        Some(_) => Status::NothingDue,
        None => Status::BadGeometry,
    }
}

/// The phase that is due of what is said, with these lengths of all that is put out, or why there is none: a flight is made of it.
// A flight has some thousand bytes, which a caller whose phase is in order need not clear.
#[inline(never)]
fn due_in_flight(
    alloc: Global,
    timing: &Timing,
    channel: &PlainChannel,
    wants: &[PlainWant],
    geometry: &PlainGeometry,
    schedule: &PlainSchedule,
) -> Result<PlainPhase, Status>
    requires measured { IsMeasured channel.now wants.now timing.now }
    requires few { length wants.now ≤ 8 }
    ensures due { IfOk result (IsDueSaid channel.now wants.now geometry.now schedule.now) }
    ensures none { IfErr result (IsNoneDue channel.now wants.now geometry.now schedule.now) }
{
    let rules = rules(&channel.rules);
    let mut flight = Flight::idle(alloc, *timing, rules, channel.bus_free, channel.lun_count);
    match fill(alloc, &mut flight, channel, wants, schedule) {
        Ok(()) => {}
        Err(status) => return Err(status),
    }
    match flight.due() {
        Next::Due(due) => phase_on(&flight.timing(), geometry, &due),
        Next::Done => Err(over_status(geometry)),
        Next::Illegal => Err(Status::Illegal),
    }
}

/// The same, seen where it is said if it is in order.
fn due_of(
    alloc: Global,
    timing: &Timing,
    channel: &PlainChannel,
    wants: &[PlainWant],
    geometry: &PlainGeometry,
    schedule: &PlainSchedule,
) -> Result<PlainPhase, Status>
    requires measured { IsMeasured channel.now wants.now timing.now }
    requires few { length wants.now ≤ 8 }
    ensures due { IfOk result (IsDueSaid channel.now wants.now geometry.now schedule.now) }
    ensures none { IfErr result (IsNoneDue channel.now wants.now geometry.now schedule.now) }
{
    let rules = rules(&channel.rules);
    if let Some(due) = due_in_order(alloc, &rules, timing, channel, wants, schedule) {
        return phase_on(timing, geometry, &due);
    }
    due_in_flight(alloc, timing, channel, wants, geometry, schedule)
}

/// The same of a caller's channel.
fn find_due(
    alloc: Global,
    channel: &PlainChannel,
    wants: &[PlainWant],
    geometry: &PlainGeometry,
    schedule: &PlainSchedule,
) -> Result<PlainPhase, Status>
    ensures due { IfOk result (IsDueSaid channel.now wants.now geometry.now schedule.now) }
    ensures none { IfErr result (IsNoneDue channel.now wants.now geometry.now schedule.now) }
{
    match measure_few(alloc, channel, wants) {
        Ok(timing) => due_of(alloc, &timing, channel, wants, geometry, schedule),
        Err(status) => Err(status),
    }
}

/// The phase that is due of a schedule, what is left of a plan: the undone one of least start, with the bytes and the
/// address that a driver gives out for it. That it may run is looked at, and nothing else of the schedule: of one that isn't
/// legal a phase may be given. This asks for no memory.
///
/// Answers 0; or the first of the numbers that [`onfi_plan`](crate::plan::onfi_plan) answers for the channel, but for
/// `Memory`, and those of `BadSchedule`, of `Illegal` where the phase of least start may not run, or what waits or runs has no
/// start, and of `BadGeometry`, `NothingDue` and `BadPlace`; and the phase is as it was.
pub fn onfi_due(
    alloc: Global,
    channel: &PlainChannel,
    wants: &[PlainWant],
    geometry: &PlainGeometry,
    schedule: &PlainSchedule,
    phase: &mut PlainPhase,
) -> u32
    ensures { GivesDue channel.now wants.now geometry.now schedule.now phase.old phase.new result }
{
    match find_due(alloc, channel, wants, geometry, schedule) {
        Ok(due) => {
            *phase = due;
            0
        }
        Err(status) => status.number(),
    }
}
