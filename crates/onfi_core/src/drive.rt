//! A bus phase of a half on its chip.

ghost use Rattle.std.specs.Prelude.{◌≡◌, ℕ, None, IfOk, IfErr, IfSome};
ghost use Rattle.onfi_core.specs.declared.event.Event.TheVariants as event;
ghost use Rattle.onfi_core.specs.Dues.{IsDue};
ghost use Rattle.onfi_core.specs.Kept.{ChipAgrees, IsSound};
ghost use Rattle.onfi_core.specs.Refusals.{cause_of, phase_outcome};
ghost use Rattle.onfi_core.specs.State.{ChannelState, channel_with};
ghost use Rattle.onfi_core.specs.Steps.{Step, bus_refusal};
ghost use Rattle.onfi_core.specs.View.{IsKeptByPhase};
ghost use Rattle.onfi_lun.specs.Lanes.{LanesAgree};

use crate::half::Half;
use crate::outcome::{Cause, Outcome};
use onfi_chip::Chip;
use onfi_flight::Due;
use onfi_lun::{DriveFault, Lanes, Target};
use std::alloc::Global;

/// Why the due phase of a half wasn't run.
#[derive(Clone, Copy, Debug, PartialEq, Eq)]
pub enum PhaseStop {
    /// A call of the chip failed: the half stopped.
    Stopped(Cause),
    /// Memory was refused, before the chip was called: nothing changed.
    Memory,
}

/// Runs the due phase of a half on its chip, by the move of its LUN, and answers when it started, in ns of the channel's
/// clock: the chip's answer at a post is held as a reply. Whoever drives a channel runs its phases so. Memory is asked for
/// before the chip is called.
///
/// # Errors
/// `Stopped` where a call of the chip failed; then the half stopped, and nothing more is known of the chip and its LUNs than
/// the chip's faults and its count of that fault, which rose. `Memory` where a growth was refused; then nothing changed.
pub fn run_due<C: Chip>(
    alloc: Global,
    half: &mut Half,
    chip: &mut C,
    lanes: &mut Lanes,
    due: &Due,
) -> Result<u64, PhaseStop>
    requires settled { half.old.lent ≡ None }
    requires sound { IsSound half.old.setup half.old.state }
    requires agree { ChipAgrees half.old.setup half.old.state (C.state chip.old) }
    requires lanes { LanesAgree (C.state chip.old) lanes.old }
    requires due { IsDue half.old.state due.now }
    requires open { bus_refusal half.old.state ≡ None }
    ensures step { (c : ChannelState) (channel : ℕ)
        → Step half.old.setup (channel_with c half.old.state (C.state chip.old)) (event.Bus channel) (phase_outcome result) (channel_with c half.new.state (C.state chip.new)) }
    ensures start { IfOk result (λ start. start ≡ due.now.start) }
    ensures lanes { half.new.state.stopped ≡ None → LanesAgree (C.state chip.new) lanes.new }
    ensures memory { IfErr result (λ stop. stop ≡ PhaseStop.Memory → (half.new ≡ half.old) × (C.state chip.new ≡ C.state chip.old)) }
    ensures kept { IsKeptByPhase half.old half.new }
{
    let setup = half.setup();
    let target = Target {
        geometry: setup.geometry,
        timing: setup.timing,
    };
    let item = half.member(due);
    match lanes.run_due(alloc, chip, &target, due, item) {
        Ok(ran) => {
            half.done(due, ran, &*chip);
            Ok(due.start)
        }
        Err(fault) => match cause_of(fault, due.lun) {
            Some(cause) => {
                half.stop(cause);
                Err(PhaseStop::Stopped(cause))
            }
            None => Err(PhaseStop::Memory),
        },
    }
}

/// Why a channel stops where the phase on that LUN wasn't run; refused memory stops nothing.
pub fn cause_of(fault: DriveFault, lun: u8) -> Option<Cause>
    ensures { result ≡ cause_of fault lun }
{
    match fault {
        DriveFault::Bus => Some(Cause::Bus),
        DriveFault::NotReady => Some(Cause::NotReady(lun)),
        DriveFault::Memory => None,
    }
}

/// What a due phase came to, as an outcome.
pub(crate) fn phase_outcome(ran: Result<u64, PhaseStop>) -> Outcome
    ensures { result ≡ phase_outcome ran }
{
    match ran {
        Ok(start) => Outcome::Phase(start),
        Err(PhaseStop::Stopped(cause)) => Outcome::Stopped(cause),
        Err(PhaseStop::Memory) => Outcome::Memory(None),
    }
}
