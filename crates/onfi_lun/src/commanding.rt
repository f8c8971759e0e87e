//! The commands of a group.

ghost use Rattle.std.specs.Prelude.{◌≡◌, ◌+◌, ◌^◌, ◌<◌, ◌≤◌, List, All, length, IfOk, IfErr, slice_get};
ghost use Rattle.onfi_request.specs.declared.request.Request.{Request as ARequest};
ghost use Rattle.onfi_request.specs.Range.{Fits};
ghost use Rattle.onfi_timing.specs.Kinds.{spans_of};
ghost use Rattle.onfi_chip.specs.Hold.{hold};
ghost use Rattle.onfi_chip.specs.Calls.{MayTake, MayJoin, HasDone, AfterFault, command_of};
ghost use Rattle.onfi_lun.specs.Phases.{IsOf, IsIdle, IsQueuing, IsCommanded, IsMade, OthersStay};

use crate::fault::Refused;
use crate::lun::{Commanded, Lun};
use crate::states::{Idle, Queuing, Working};
use crate::target::Target;
use onfi_chip::{Chip, ChipFault, Closer};
use onfi_request::Request;
use std::alloc::Global;

impl Lun<Idle> {
    /// The first command of a group, at `now`, in ns. `closer` says whether more commands follow.
    ///
    /// # Errors
    /// The chip's fault, with the LUN as it was.
    pub fn command<C: Chip>(
        self,
        alloc: Global,
        chip: &mut C,
        target: &Target,
        now: u64,
        request: &Request,
        closer: Closer,
    ) -> Result<Commanded, Refused<ChipFault, Idle>>
        requires device { IsOf target.now (C.state chip.old) }
        requires idle { IsIdle (C.state chip.old) self }
        requires lun { request.now.place.lun ≡ self.number }
        requires fits { Fits target.now.geometry request.now }
        requires time { now < 2 ^ 63 }
        ensures done { IfOk result (λ _. HasDone (command_of closer (C.state chip.old) request.now now) (C.state chip.new)) }
        ensures commanded { IfOk result (λ commanded. IsCommanded closer (C.state chip.new) self.number commanded) }
        ensures made { IfOk result (λ commanded. IsMade closer self.number 1 (now + hold closer (spans_of target.now.timing request.now.kind)) commanded) }
        ensures others { IfOk result (λ _. OthersStay self.number (C.state chip.old) (C.state chip.new)) }
        ensures fault { IfErr result (λ refused. AfterFault refused.fault (C.state chip.old) (C.state chip.new)) }
        ensures lun { IfErr result (λ refused. refused.lun ≡ self) }
    {
        match give(alloc, chip, target, now, request, closer) {
            Ok(ready) => Ok(make_commanded(self.number(), 1, ready, closer)),
            Err(fault) => Err(Refused { fault, lun: self }),
        }
    }
}

impl Lun<Queuing> {
    /// The next command of the group, at `now`, in ns. `closer` says whether more commands follow.
    ///
    /// # Errors
    /// The chip's fault, with the LUN as it was.
    pub fn command<C: Chip>(
        self,
        alloc: Global,
        chip: &mut C,
        target: &Target,
        now: u64,
        request: &Request,
        closer: Closer,
    ) -> Result<Commanded, Refused<ChipFault, Queuing>>
        requires device { IsOf target.now (C.state chip.old) }
        requires queuing { (requests : List ARequest) × IsQueuing (C.state chip.old) self requests × All (MayJoin target.now.geometry request.now) requests }
        requires over { self.state.ready ≤ now }
        requires few { self.state.commands < 4 }
        requires lun { request.now.place.lun ≡ self.number }
        requires fits { Fits target.now.geometry request.now }
        requires time { now < 2 ^ 63 }
        ensures done { IfOk result (λ _. HasDone (command_of closer (C.state chip.old) request.now now) (C.state chip.new)) }
        ensures commanded { IfOk result (λ commanded. IsCommanded closer (C.state chip.new) self.number commanded) }
        ensures made { IfOk result (λ commanded. IsMade closer self.number (self.state.commands + 1) (now + hold closer (spans_of target.now.timing request.now.kind)) commanded) }
        ensures others { IfOk result (λ _. OthersStay self.number (C.state chip.old) (C.state chip.new)) }
        ensures fault { IfErr result (λ refused. AfterFault refused.fault (C.state chip.old) (C.state chip.new)) }
        ensures lun { IfErr result (λ refused. refused.lun ≡ self) }
    {
        let commands = self.state().commands;
        match give(alloc, chip, target, now, request, closer) {
            Ok(ready) => Ok(make_commanded(self.number(), commands + 1, ready, closer)),
            Err(fault) => Err(Refused { fault, lun: self }),
        }
    }
}

// The LUN that took that many commands, the last with that closer.
fn make_commanded(number: u8, commands: u8, ready: u64, closer: Closer) -> Commanded
    requires some { 1 ≤ commands }
    requires few { commands ≤ 4 }
    ensures { IsMade closer number commands ready result }
{
    match closer {
        Closer::More => Commanded::More(Lun::at(number, Queuing { commands, ready })),
        Closer::Last => Commanded::Last(Lun::at(
            number,
            Working {
                members: commands,
                ready,
            },
        )),
    }
}

// The chip takes the command, and its LUN is held until the moment that is answered.
fn give<C: Chip>(
    alloc: Global,
    chip: &mut C,
    target: &Target,
    now: u64,
    request: &Request,
    closer: Closer,
) -> Result<u64, ChipFault>
    requires device { IsOf target.now (C.state chip.old) }
    requires may_take { MayTake target.now.geometry now request.now (slice_get (C.state chip.old).luns request.now.place.lun) }
    requires fits { Fits target.now.geometry request.now }
    requires time { now < 2 ^ 63 }
    ensures done { IfOk result (λ _. HasDone (command_of closer (C.state chip.old) request.now now) (C.state chip.new)) }
    ensures ready { IfOk result (λ ready. ready ≡ now + hold closer (spans_of target.now.timing request.now.kind)) }
    ensures others { IfOk result (λ _. OthersStay request.now.place.lun (C.state chip.old) (C.state chip.new)) }
    ensures err { IfErr result (λ fault. AfterFault fault (C.state chip.old) (C.state chip.new)) }
{
    let row = target.geometry.row(&request.place);
    let spans = target.timing.spans(request.kind);
    chip.command(
        alloc,
        now,
        row,
        request.kind,
        closer,
        request.bytes.as_slice(),
    )?;
    Ok(now + closer.hold(spans))
}
