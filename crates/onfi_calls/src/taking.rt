//! Requests that a dispatcher takes, and one that waits no more.
ghost use Rattle.std.specs.Prelude.{◌≡◌};
ghost use Rattle.onfi_calls.specs.Dispatching as spec;
ghost use Rattle.onfi_calls.specs.Problem.{want_of};
ghost use Rattle.onfi_steady.specs.Dispatcher.{accept_refusal, accepted_again, again_refusal};
ghost use Rattle.onfi_steady.specs.Waiting.{accepted};

use crate::channel::PlainWant;
use crate::dispatcher::is_on;
use crate::in_order::has_page;
use crate::plain_dispatcher::PlainDispatcher;
use crate::problem::{lacks_length, want_of};
use crate::status::Status;

/// Why the device can't have a request, if so.
fn refusal_of(kept: &PlainDispatcher, want: &PlainWant) -> Option<Status>
    ensures { result ≡ spec.want_refusal kept.now want.now }
{
    if !kept.dispatcher.is_whole() {
        return Some(Status::BadDispatcher);
    }
    if want.kind % 32 > 2 {
        return Some(Status::BadKind);
    }
    if !is_on(&kept.device.geometry, want) {
        return Some(Status::BadPlace);
    }
    if has_page(want) {
        return Some(Status::BadLun);
    }
    if lacks_length(&kept.device.lengths, want) {
        return Some(Status::NoLengths);
    }
    None
}

/// Has a dispatcher take a request after the others that wait for its LUN. This asks for no memory.
///
/// Answers 0; or the first of the numbers of `BadKind`, of `BadPlace` where the device has no such LUN, block or page, of `BadLun`
/// where it erases another page than 0, of `NoLengths` where it has sectors without a length, of `BadLun` where the channel has no
/// such LUN, of `TooMany` where 64 requests wait for it, and of `BadOrder` where its number isn't above that of the last of these,
/// or one of them has it; and all is as it was.
pub fn onfi_dispatcher_accept(dispatcher: &mut PlainDispatcher, want: &PlainWant) -> u32
    ensures { spec.GivesTaken (spec.told (spec.want_refusal dispatcher.old want.now) (accept_refusal dispatcher.old.dispatcher (want_of dispatcher.old.device.plane_bits want.now)))
        (λ books. accepted books (want_of dispatcher.old.device.plane_bits want.now)) dispatcher.old dispatcher.new result }
{
    if let Some(status) = refusal_of(dispatcher, want) {
        return status.number();
    }
    let want = want_of(dispatcher.device.plane_bits, want);
    match dispatcher.dispatcher.accept(want) {
        Ok(()) => 0,
        Err(fault) => Status::of_accept(fault).number(),
    }
}

/// Has a dispatcher take a request once more that began, as after a read that is tried again or a reset: before all that waits for
/// its LUN. This asks for no memory.
///
/// Answers 0; or the first of the numbers that [`onfi_dispatcher_accept`] answers up to `TooMany`, and of `BadOrder` where one of its
/// number waits for the LUN; and all is as it was.
pub fn onfi_dispatcher_accept_again(dispatcher: &mut PlainDispatcher, want: &PlainWant) -> u32
    ensures { spec.GivesTaken (spec.told (spec.want_refusal dispatcher.old want.now) (again_refusal dispatcher.old.dispatcher (want_of dispatcher.old.device.plane_bits want.now)))
        (λ books. accepted_again books (want_of dispatcher.old.device.plane_bits want.now)) dispatcher.old dispatcher.new result }
{
    if let Some(status) = refusal_of(dispatcher, want) {
        return status.number();
    }
    let want = want_of(dispatcher.device.plane_bits, want);
    match dispatcher.dispatcher.accept_again(want) {
        Ok(()) => 0,
        Err(fault) => Status::of_accept(fault).number(),
    }
}

/// Has a dispatcher drop the request of that number which waits: of the lowest LUN for which one does. This asks for no memory.
///
/// Answers 0; or the number of `NotWaiting` where none waits, and all is as it was.
pub fn onfi_dispatcher_cancel(dispatcher: &mut PlainDispatcher, id: u64) -> u32
    ensures { spec.GivesCancelled dispatcher.old dispatcher.new id result }
{
    if !dispatcher.dispatcher.is_whole() {
        return Status::BadDispatcher.number();
    }
    if dispatcher.dispatcher.cancel(id) {
        return 0;
    }
    Status::NotWaiting.number()
}
