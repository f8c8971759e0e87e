ghost use Rattle.std.specs.Prelude.{◌≡◌, ◌≢◌, ◌↔◌, ◌+◌, ◌<◌, ◌≤◌, ◌^◌, List, false, length, slice_get, IfOk, IfErr, IsTrue};
ghost use Rattle.onfi_addr.specs.Rows.{row_of};
ghost use Rattle.onfi_timing.specs.Kinds.{operation_of};
ghost use Rattle.onfi_request.specs.Range.{Fits};
ghost use Rattle.onfi_chip.specs.declared.post.Post.{Post as APost};
ghost use Rattle.onfi_chip.specs.Chip.{found_ready, posted, taken};
ghost use Rattle.onfi_chip.specs.Calls.{AfterFault, HasDone, IsMissed, IsNextPost, MayTake, command_of};
ghost use Rattle.onfi_chip.specs.Fetching.{HasRoom};
ghost use Rattle.onfi_lun.specs.Phases.{IsOf, OthersStay};
ghost use Rattle.onfi_lun.specs.Lanes.{IsThere, IsInArray, IsRipe, Works, IsPostOf, number_in, left_in, ready_in, behind_command, behind_post};

use crate::lun::{Commanded, Lun, Posted};
use crate::states::{Idle, Posting, Queuing, Working};
use crate::target::Target;
use onfi_chip::{Chip, ChipFault, Closer, Fetch, PostFault};
use onfi_request::{Answer, Request};
use onfi_timing::Operation;
use std::alloc::Global;

/// A LUN in whichever of the typed phases it is.
#[derive(Drop)]
pub enum AnyLun {
    Idle(Lun<Idle>),
    Queuing(Lun<Queuing>),
    Working(Lun<Working>),
    Posting(Lun<Posting>),
    /// Its value is in a move.
    Moving,
}

impl AnyLun {
    /// The next command of a group, the first where nothing runs, at `now`, in ns. A LUN whose command failed is as it was.
    pub(crate) fn command<C: Chip>(
        self,
        alloc: Global,
        chip: &mut C,
        target: &Target,
        now: u64,
        request: &Request,
        closer: Closer,
    ) -> (AnyLun, Result<(), ChipFault>)
        requires device { IsOf target.now (C.state chip.old) }
        requires there { IsThere (C.state chip.old) self }
        requires next { MayTake target.now.geometry now request.now (slice_get (C.state chip.old).luns (number_in self)) }
        requires few { length (taken (slice_get (C.state chip.old).luns (number_in self))) < 4 }
        requires lun { request.now.place.lun ≡ number_in self }
        requires fits { Fits target.now.geometry request.now }
        requires time { now < 2 ^ 63 }
        ensures done { IfOk result.1 (λ _. HasDone (command_of closer (C.state chip.old) request.now now) (C.state chip.new)) }
        ensures there { IfOk result.1 (λ _. IsThere (C.state chip.new) result.0) }
        ensures others { IfOk result.1 (λ _. OthersStay (number_in self) (C.state chip.old) (C.state chip.new)) }
        ensures number { number_in result.0 ≡ number_in self }
        ensures fault { IfErr result.1 (λ fault. AfterFault fault (C.state chip.old) (C.state chip.new)) }
        ensures same { IfErr result.1 (λ _. result.0 ≡ self) }
    {
        match self {
            AnyLun::Idle(lun) => match lun.command(alloc, chip, target, now, request, closer) {
                Ok(commanded) => (after_command(commanded), Ok(())),
                Err(refused) => (AnyLun::Idle(refused.lun), Err(refused.fault)),
            },
            AnyLun::Queuing(lun) => match lun.command(alloc, chip, target, now, request, closer) {
                Ok(commanded) => (after_command(commanded), Ok(())),
                Err(refused) => (AnyLun::Queuing(refused.lun), Err(refused.fault)),
            },
            AnyLun::Working(_) | AnyLun::Posting(_) | AnyLun::Moving => unreachable!(),
        }
    }

    /// The next post of a group, at `now`, in ns. A LUN whose post failed still has it.
    pub(crate) fn post<C: Chip>(
        self,
        chip: &mut C,
        target: &Target,
        now: u64,
        fetch: Fetch,
    ) -> (AnyLun, Result<Answer, PostFault>)
        requires device { IsOf target.now (C.state chip.old) }
        requires there { IsThere (C.state chip.old) self }
        requires next { (post : APost) × (left : List APost) × IsPostOf target.now.geometry (C.state chip.old) now fetch post left }
        requires lun { fetch.place.lun ≡ number_in self }
        requires room { HasRoom target.now.geometry fetch }
        requires time { now < 2 ^ 63 }
        ensures answer { IfOk result.1 (λ answer. (post : APost) (left : List APost)
            → IsNextPost (C.state chip.old) now (row_of target.now.geometry fetch.place) post left → answer ≡ post.answer) }
        ensures done { IfOk result.1 (λ _. (post : APost) (left : List APost)
            → IsNextPost (C.state chip.old) now (row_of target.now.geometry fetch.place) post left
            → HasDone (posted (C.state chip.old) post left now) (C.state chip.new)) }
        ensures there { IfOk result.1 (λ _. IsThere (C.state chip.new) result.0) }
        ensures others { IfOk result.1 (λ _. OthersStay (number_in self) (C.state chip.old) (C.state chip.new)) }
        ensures number { number_in result.0 ≡ number_in self }
        ensures lost { IfErr result.1 (λ fault. IsMissed fetch.kind fault (C.state chip.old) (C.state chip.new)) }
        ensures not_ready { IfErr result.1 (λ fault. fault ≡ PostFault.NotReady → operation_of fetch.kind ≢ Operation.Read) }
    {
        let posting = self.into_posting(now);
        match posting.post(chip, target, now, fetch) {
            Ok((posted, answer)) => (after_post(posted), Ok(answer)),
            Err(refused) => (AnyLun::Posting(refused.lun), Err(refused.fault)),
        }
    }

    /// Whether its array works at `now`, in ns, by what is stated.
    pub(crate) fn works(&self, now: u64) -> bool
        ensures { IsTrue result ↔ Works now self.now }
    {
        match self {
            AnyLun::Working(lun) => lun.state().ready > now,
            _ => false,
        }
    }

    /// Whether its array works, or is over and nothing of it was posted.
    pub(crate) fn is_in_array(&self) -> bool
        ensures { IsTrue result ↔ IsInArray self.now }
    {
        matches!(self, AnyLun::Working(_))
    }

    /// Whether the chip says at `now`, in ns, that the LUN is ready, whose array works or is over.
    pub(crate) fn poll<C: Chip>(self, chip: &mut C, now: u64) -> (AnyLun, bool)
        requires there { IsThere (C.state chip.old) self }
        requires in_array { IsInArray self }
        ensures ready { IsTrue result.1 → C.state chip.new ≡ found_ready (C.state chip.old) (number_in self) now }
        ensures busy { result.1 ≡ false → C.state chip.new ≡ C.state chip.old }
        ensures there { IsThere (C.state chip.new) result.0 }
        ensures number { number_in result.0 ≡ number_in self }
    {
        let AnyLun::Working(lun) = self else {
            unreachable!();
        };
        if chip.poll(now, lun.number()) {
            (AnyLun::Working(lun.bring_forward(now)), true)
        } else {
            (AnyLun::Working(lun), false)
        }
    }

    // The LUN in its posts: its array time is over at `now`, in ns.
    fn into_posting(self, now: u64) -> Lun<Posting>
        requires { IsRipe now self }
        ensures number { result.number ≡ number_in self }
        ensures left { result.state.left ≡ left_in self }
        ensures ready { result.state.ready ≡ ready_in self }
    {
        match self {
            AnyLun::Working(lun) => lun.work(now),
            AnyLun::Posting(lun) => lun,
            AnyLun::Idle(_) | AnyLun::Queuing(_) | AnyLun::Moving => unreachable!(),
        }
    }
}

// The LUN after a command.
fn after_command(commanded: Commanded) -> AnyLun
    ensures { result ≡ behind_command commanded }
{
    match commanded {
        Commanded::More(lun) => AnyLun::Queuing(lun),
        Commanded::Last(lun) => AnyLun::Working(lun),
    }
}

// The LUN after a post.
fn after_post(posted: Posted) -> AnyLun
    ensures { result ≡ behind_post posted }
{
    match posted {
        Posted::More(lun) => AnyLun::Posting(lun),
        Posted::Last(lun) => AnyLun::Idle(lun),
    }
}
