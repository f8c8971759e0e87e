//! The phase that a dispatcher gives, and what is reported of it.
ghost use Rattle.std.specs.Prelude.{◌≡◌, ◌<◌, ◌^◌, IfOk, IfErr};
ghost use Rattle.onfi_calls.specs.Dispatching as spec;

use crate::due::plain_phase;
use crate::geometry::read;
use crate::phase::PlainPhase;
use crate::plain_dispatcher::PlainDispatcher;
use crate::status::Status;
use onfi_steady::NextPhase;

/// No phase starts as late as this, in ns.
const LATE: u64 = 1 << 62;

/// The phase that is due, as a plain struct, where it starts then.
fn due_said(kept: &PlainDispatcher, start: u64) -> Result<PlainPhase, Status>
    ensures phase { IfOk result (spec.IsDueSaid kept.now start) }
    ensures none { IfErr result (spec.IsDueUnsaid kept.now start) }
{
    if start >= LATE {
        return Err(Status::Clock);
    }
    let Some(due) = kept.dispatcher.due() else {
        return Err(Status::NothingDue);
    };
    match plain_phase(&read(&kept.device.geometry), start, &due) {
        Some(phase) => Ok(phase),
        None => Err(Status::BadPlace),
    }
}

/// Gives the phase that is next where it is `now`, in ns, with the bytes and the address that a driver gives out for it, as
/// [`Dispatcher::next`](onfi_steady::Dispatcher::next) does. It is due until a call changes something. This asks for no memory.
///
/// Answers 0; or the number of `NothingDue` where nothing runs and nothing waits, or of `Clock` where the phase would start at 2^62 ns
/// or later; and the phase is as it was.
pub fn onfi_dispatcher_next(
    dispatcher: &mut PlainDispatcher,
    now: u64,
    phase: &mut PlainPhase,
) -> u32
    ensures { spec.GivesNext dispatcher.old dispatcher.new now phase.old phase.new result }
{
    if !dispatcher.dispatcher.is_whole() {
        return Status::BadDispatcher.number();
    }
    let start = match dispatcher.dispatcher.next(now) {
        Some(next) => next.start,
        None => return Status::NothingDue.number(),
    };
    match due_said(dispatcher, start) {
        Ok(due) => {
            *phase = due;
            0
        }
        Err(status) => status.number(),
    }
}

/// Says that the phase that is due ran from `started` on, in ns. This asks for no memory.
///
/// Answers 0; or the first of the numbers of `NothingDue` where no phase was given since something changed, of `TooSoon` before its
/// start, and of `Clock` from 2^62 ns on; and all is as it was.
pub fn onfi_dispatcher_ran(dispatcher: &mut PlainDispatcher, started: u64) -> u32
    ensures { spec.GivesRun dispatcher.old dispatcher.new started result }
{
    if !dispatcher.dispatcher.is_whole() {
        return Status::BadDispatcher.number();
    }
    match dispatcher.dispatcher.ran(started) {
        Ok(()) => 0,
        Err(fault) => Status::of_ran(fault).number(),
    }
}

/// Says that the array of a LUN was done at `moment`, in ns: the first post of its group may start from then on, or as before where
/// that is sooner. This asks for no memory.
///
/// Answers 0; or the first of the numbers of `BadLun` where there is no such LUN, and of `NotDue` where its next phase isn't the first
/// post of a group; and all is as it was.
pub fn onfi_dispatcher_ready(dispatcher: &mut PlainDispatcher, lun: u8, moment: u64) -> u32
    ensures { spec.GivesEarly dispatcher.old dispatcher.new lun moment result }
{
    if !dispatcher.dispatcher.is_whole() {
        return Status::BadDispatcher.number();
    }
    match dispatcher.dispatcher.ready(lun, moment) {
        Ok(()) => 0,
        Err(fault) => Status::of_ready(fault).number(),
    }
}
