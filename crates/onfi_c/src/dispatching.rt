//! Channels that go phase by phase, for C.
ghost use Rattle.std.specs.Prelude.{◌≡◌};
ghost use Rattle.onfi_calls.specs.Dispatching as spec;
ghost use Rattle.onfi_calls.specs.Problem.{want_of};
ghost use Rattle.onfi_steady.specs.Dispatcher.{accept_refusal, accepted_again, again_refusal};
ghost use Rattle.onfi_steady.specs.Waiting.{accepted};

use onfi_calls::{PlainChannel, PlainDispatcher, PlainGeometry, PlainPhase, PlainWant};
use std::alloc::Global;

/// Is [`onfi_dispatcher_begin`](onfi_calls::onfi_dispatcher_begin) for C.
#[unsafe(no_mangle)]
pub extern "C" fn onfi_dispatcher_begin(
    alloc: Global,
    dispatcher: &mut PlainDispatcher,
    channel: &PlainChannel,
    geometry: &PlainGeometry,
) -> u32
    ensures { spec.GivesBegun channel.now geometry.now dispatcher.old dispatcher.new result }
{
    onfi_calls::onfi_dispatcher_begin(alloc, dispatcher, channel, geometry)
}

/// Is [`onfi_dispatcher_accept`](onfi_calls::onfi_dispatcher_accept) for C.
#[unsafe(no_mangle)]
pub extern "C" fn onfi_dispatcher_accept(dispatcher: &mut PlainDispatcher, want: &PlainWant) -> u32
    ensures { spec.GivesTaken (spec.told (spec.want_refusal dispatcher.old want.now) (accept_refusal dispatcher.old.dispatcher (want_of dispatcher.old.device.plane_bits want.now)))
        (λ books. accepted books (want_of dispatcher.old.device.plane_bits want.now)) dispatcher.old dispatcher.new result }
{
    onfi_calls::onfi_dispatcher_accept(dispatcher, want)
}

/// Is [`onfi_dispatcher_accept_again`](onfi_calls::onfi_dispatcher_accept_again) for C.
#[unsafe(no_mangle)]
pub extern "C" fn onfi_dispatcher_accept_again(
    dispatcher: &mut PlainDispatcher,
    want: &PlainWant,
) -> u32
    ensures { spec.GivesTaken (spec.told (spec.want_refusal dispatcher.old want.now) (again_refusal dispatcher.old.dispatcher (want_of dispatcher.old.device.plane_bits want.now)))
        (λ books. accepted_again books (want_of dispatcher.old.device.plane_bits want.now)) dispatcher.old dispatcher.new result }
{
    onfi_calls::onfi_dispatcher_accept_again(dispatcher, want)
}

/// Is [`onfi_dispatcher_cancel`](onfi_calls::onfi_dispatcher_cancel) for C.
#[unsafe(no_mangle)]
pub extern "C" fn onfi_dispatcher_cancel(dispatcher: &mut PlainDispatcher, id: u64) -> u32
    ensures { spec.GivesCancelled dispatcher.old dispatcher.new id result }
{
    onfi_calls::onfi_dispatcher_cancel(dispatcher, id)
}

/// Is [`onfi_dispatcher_next`](onfi_calls::onfi_dispatcher_next) for C.
#[unsafe(no_mangle)]
pub extern "C" fn onfi_dispatcher_next(
    dispatcher: &mut PlainDispatcher,
    now: u64,
    phase: &mut PlainPhase,
) -> u32
    ensures { spec.GivesNext dispatcher.old dispatcher.new now phase.old phase.new result }
{
    onfi_calls::onfi_dispatcher_next(dispatcher, now, phase)
}

/// Is [`onfi_dispatcher_ran`](onfi_calls::onfi_dispatcher_ran) for C.
#[unsafe(no_mangle)]
pub extern "C" fn onfi_dispatcher_ran(dispatcher: &mut PlainDispatcher, started: u64) -> u32
    ensures { spec.GivesRun dispatcher.old dispatcher.new started result }
{
    onfi_calls::onfi_dispatcher_ran(dispatcher, started)
}

/// Is [`onfi_dispatcher_ready`](onfi_calls::onfi_dispatcher_ready) for C.
#[unsafe(no_mangle)]
pub extern "C" fn onfi_dispatcher_ready(
    dispatcher: &mut PlainDispatcher,
    lun: u8,
    moment: u64,
) -> u32
    ensures { spec.GivesEarly dispatcher.old dispatcher.new lun moment result }
{
    onfi_calls::onfi_dispatcher_ready(dispatcher, lun, moment)
}
