//! The LUNs of a channel.

ghost use Rattle.std.specs.Prelude.{◌≡◌, ◌≢◌, ℕ, ◌+◌, ◌<◌, ◌^◌, List, false, length, replicate, slice_get, IfOk, IfErr, IfSome, IsTrue};
ghost use Rattle.onfi_addr.specs.Rows.{row_of};
ghost use Rattle.onfi_timing.specs.Kinds.{operation_of};
ghost use Rattle.onfi_request.specs.Range.{Fits};
ghost use Rattle.onfi_chip.specs.declared.post.Post.{Post as APost};
ghost use Rattle.onfi_chip.specs.Chip.{Chip as ChipState, found_ready, posted, taken};
ghost use Rattle.onfi_chip.specs.Chip.Lun.{Idle as DoesNothing};
ghost use Rattle.onfi_chip.specs.Calls.{AfterFault, HasDone, IsMissed, IsNextPost, MayTake, command_of};
ghost use Rattle.onfi_chip.specs.Fetching.{HasRoom};
ghost use Rattle.onfi_lun.specs.Drive.{HasRun, AfterDrive, IsStatus, closer_of};
ghost use Rattle.onfi_lun.specs.Phases.{IsOf};
ghost use Rattle.onfi_lun.specs.Lanes.{LanesAgree, MayRunDue, AreIdle, IsPostOf, IsInArray, OthersKept, Works};

mod any_lun;

use crate::drive::{DriveFault, fault_of_command, fault_of_post};
use crate::lun::Lun;
use crate::phase_result::PhaseResult;
use crate::target::Target;
use any_lun::AnyLun;
use onfi_chip::{Chip, ChipFault, Closer, Fetch, PostFault};
use onfi_flight::Due;
use onfi_request::{Answer, Item, Request};
use onfi_timing::Operation;
use std::alloc::{AllocError, Global};
use std::marker::Model;
use std::mem;

/// The LUNs of a channel, each in its typed phase. In contracts they are a list, by number.
#[derive(Drop)]
pub struct Lanes {
    luns: Vec<AnyLun>,
}

impl Model for Lanes {
    ghost use Rattle.std.specs.Prelude.{List};
    ghost use Rattle.onfi_lun.specs.declared.lanes.any_lun.AnyLun.{AnyLun as InAnyPhase};

    ghost Value = { List InAnyPhase };

    ghost view = { λ lanes. lanes.luns.items };
}

impl Lanes {
    /// The LUNs of a chip as it opened, that many: nothing runs on any.
    ///
    /// # Errors
    /// Where memory was refused.
    pub fn open(alloc: Global, count: u8) -> Result<Lanes, AllocError>
        ensures { IfOk result (λ lanes. (chip : ChipState) → chip.luns ≡ replicate count DoesNothing → LanesAgree chip lanes) }
    {
        Ok(Lanes {
            luns: idle_luns(alloc, count)?,
        })
    }

    /// Runs the due phase of the member that has this item, at its start, by the move of its LUN: a command, the data
    /// output of a read, or the status of a program or an erase. Room for a read is asked for before the chip is called.
    ///
    /// # Errors
    /// `Bus`, or `NotReady` at the status of a program or an erase: nothing more is known of the chip than its faults and
    /// its count of that fault, which rose; or `Bus` where sectors are asked of a chip that has none, which is unchanged. `Memory` where a growth was refused: chip and LUNs are unchanged.
    pub fn run_due<C: Chip>(
        &mut self,
        alloc: Global,
        chip: &mut C,
        target: &Target,
        due: &Due,
        item: &Item,
    ) -> Result<PhaseResult, DriveFault>
        requires agree { LanesAgree (C.state chip.old) self.old }
        requires due { MayRunDue target.now (C.state chip.old) due.now item.now }
        ensures ran { IfOk result (λ ran. HasRun (C.state chip.old) target.now.geometry due.now item.now ran (C.state chip.new)) }
        ensures agree { IfOk result (λ _. LanesAgree (C.state chip.new) self.new) }
        ensures err { IfErr result (λ fault. AfterDrive due.now item.now fault (C.state chip.old) (C.state chip.new)) }
        ensures not_ready { IfErr result (λ fault. fault ≡ DriveFault.NotReady → IsStatus due.now item.now) }
        ensures memory { IfErr result (λ fault. fault ≡ DriveFault.Memory → self.new ≡ self.old) }
        ensures others { OthersKept due.now.lun self.old self.new }
    {
        if usize::from(due.phase) < due.group.len() {
            return match self.command(alloc, chip, target, due, &item.request) {
                Ok(()) => Ok(PhaseResult::Command),
                Err(fault) => Err(fault_of_command(fault)),
            };
        }
        let Ok(fetch) = Fetch::of(
            alloc,
            &target.geometry,
            item.request.kind,
            item.request.place,
        ) else {
            return Err(DriveFault::Memory);
        };
        match self.post(chip, target, due, fetch) {
            Ok(answer) => Ok(PhaseResult::Post(answer)),
            Err(fault) => Err(fault_of_post(fault)),
        }
    }

    /// Whether the LUN says at `now`, in ns, that it is ready, asked of the chip without the bus. A LUN whose array doesn't
    /// work then by what is stated isn't asked.
    pub fn poll<C: Chip>(&mut self, chip: &mut C, now: u64, lun: u8) -> bool
        requires agree { LanesAgree (C.state chip.old) self.old }
        ensures ready { IsTrue result → C.state chip.new ≡ found_ready (C.state chip.old) lun now }
        ensures busy { result ≡ false → C.state chip.new ≡ C.state chip.old }
        ensures agree { LanesAgree (C.state chip.new) self.new }
        ensures works { IsTrue result → IfSome (slice_get self.old lun) (Works now) }
        ensures others { OthersKept lun self.old self.new }
    {
        let at = usize::from(lun);
        if at >= self.luns.len() || !self.luns[at].works(now) {
            return false;
        }
        self.ask(chip, now, lun)
    }

    /// As [`Lanes::poll`], for a LUN whose array works or is over by what is stated: it is asked either way. One that is
    /// idle, in its commands or in its posts isn't asked.
    pub fn ask<C: Chip>(&mut self, chip: &mut C, now: u64, lun: u8) -> bool
        requires agree { LanesAgree (C.state chip.old) self.old }
        ensures ready { IsTrue result → C.state chip.new ≡ found_ready (C.state chip.old) lun now }
        ensures busy { result ≡ false → C.state chip.new ≡ C.state chip.old }
        ensures agree { LanesAgree (C.state chip.new) self.new }
        ensures in_array { IsTrue result → IfSome (slice_get self.old lun) IsInArray }
        ensures others { OthersKept lun self.old self.new }
    {
        let at = usize::from(lun);
        if at >= self.luns.len() || !self.luns[at].is_in_array() {
            return false;
        }
        let lun = mem::replace(&mut self.luns[at], AnyLun::Moving);
        let (lun, ready) = lun.poll(chip, now);
        self.luns[at] = lun;
        ready
    }

    // The command of a member.
    fn command<C: Chip>(
        &mut self,
        alloc: Global,
        chip: &mut C,
        target: &Target,
        due: &Due,
        request: &Request,
    ) -> Result<(), ChipFault>
        requires agree { LanesAgree (C.state chip.old) self.old }
        requires device { IsOf target.now (C.state chip.old) }
        requires next { MayTake target.now.geometry due.now.start request.now (slice_get (C.state chip.old).luns due.now.lun) }
        requires few { length (taken (slice_get (C.state chip.old).luns due.now.lun)) < 4 }
        requires lun { request.now.place.lun ≡ due.now.lun }
        requires fits { Fits target.now.geometry request.now }
        requires time { due.now.start < 2 ^ 63 }
        ensures done { IfOk result (λ _. HasDone (command_of (closer_of due.now.group due.now.phase) (C.state chip.old) request.now due.now.start) (C.state chip.new)) }
        ensures agree { IfOk result (λ _. LanesAgree (C.state chip.new) self.new) }
        ensures fault { IfErr result (λ fault. AfterFault fault (C.state chip.old) (C.state chip.new)) }
        ensures same { IfErr result (λ _. self.new ≡ self.old) }
        ensures others { OthersKept due.now.lun self.old self.new }
    {
        let closer = closer_of(due);
        let at = usize::from(due.lun);
        let lun = mem::replace(&mut self.luns[at], AnyLun::Moving);
        let (lun, given) = lun.command(alloc, chip, target, due.start, request, closer);
        self.luns[at] = lun;
        given
    }

    // The post of a member.
    fn post<C: Chip>(
        &mut self,
        chip: &mut C,
        target: &Target,
        due: &Due,
        fetch: Fetch,
    ) -> Result<Answer, PostFault>
        requires agree { LanesAgree (C.state chip.old) self.old }
        requires device { IsOf target.now (C.state chip.old) }
        requires next { (post : APost) × (left : List APost) × IsPostOf target.now.geometry (C.state chip.old) due.now.start fetch post left }
        requires lun { fetch.place.lun ≡ due.now.lun }
        requires room { HasRoom target.now.geometry fetch }
        requires time { due.now.start < 2 ^ 63 }
        ensures answer { IfOk result (λ answer. (post : APost) (left : List APost)
            → IsNextPost (C.state chip.old) due.now.start (row_of target.now.geometry fetch.place) post left → answer ≡ post.answer) }
        ensures done { IfOk result (λ _. (post : APost) (left : List APost)
            → IsNextPost (C.state chip.old) due.now.start (row_of target.now.geometry fetch.place) post left
            → HasDone (posted (C.state chip.old) post left due.now.start) (C.state chip.new)) }
        ensures agree { IfOk result (λ _. LanesAgree (C.state chip.new) self.new) }
        ensures lost { IfErr result (λ fault. IsMissed fetch.kind fault (C.state chip.old) (C.state chip.new)) }
        ensures not_ready { IfErr result (λ fault. fault ≡ PostFault.NotReady → operation_of fetch.kind ≢ Operation.Read) }
        ensures others { OthersKept due.now.lun self.old self.new }
    {
        let at = usize::from(due.lun);
        let lun = mem::replace(&mut self.luns[at], AnyLun::Moving);
        let (lun, given) = lun.post(chip, target, due.start, fetch);
        self.luns[at] = lun;
        given
    }
}

// What closes the due command.
fn closer_of(due: &Due) -> Closer
    ensures { result ≡ closer_of due.now.group due.now.phase }
{
    if usize::from(due.phase) + 1 == due.group.len() {
        Closer::Last
    } else {
        Closer::More
    }
}

// That many LUNs on which nothing runs, by number.
fn idle_luns(alloc: Global, count: u8) -> Result<Vec<AnyLun>, AllocError>
    ensures { IfOk result (λ luns. AreIdle count luns.items) }
{
    let mut luns = Vec::with_capacity(alloc, usize::from(count))?;
    for number in 0..count {
        luns.push(AnyLun::Idle(Lun::new(number)))?;
    }
    Ok(luns)
}
