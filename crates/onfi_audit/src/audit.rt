ghost use Rattle.std.specs.Prelude.{◌≡◌, ◌≢◌, ℕ, true, false, ◌<◌, ◌≤◌, List, None, Some, option_map, slice_get, length, IfOk, IfErr, IfSome, IfNone};
ghost use Rattle.onfi_request.specs.declared.want.Want.{Want as AWant};
ghost use Rattle.onfi_audit.specs.declared.stage.LunStage.{LunStage as AStage};
ghost use Rattle.onfi_audit.specs.Audit.{Audit as Left, IsAccepted, AwaitsPosts, IsAccepting, IsAlone, IsGroupOn, IsRegained, IsStray, TellsFault, accepting, earliest, early_by, first_at, from_on, opening, readied, request_of, resuming, with_stage};

mod judging;

use crate::line::Line;
use crate::luns::Luns;
use crate::requests::{find_named, first_at};
use crate::stage::LunStage;
use crate::waiting::Waiting;
use onfi_addr::plane_at;
use onfi_flight::Flight;
use onfi_group::{Group, Rules};
use onfi_request::Want;
use onfi_timing::{Kind, Operation, Timing};
use std::alloc::{AllocError, Global};
use std::marker::Model;
use thiserror::Error;

/// What the phases of a log that were judged have left: from when on the bus is free, what each LUN does, and the requests that wait.
/// It takes memory for requests that wait, and for nothing else.
#[derive(Drop)]
pub struct Audit {
    timing: Timing,
    rules: Rules,
    bus_free: u64,
    luns: Luns,
    wants: Waiting,
    accepted: u64,
}

impl Model for Audit {
    ghost use Rattle.std.specs.Prelude.{◌<◌};
    ghost use Rattle.std.specs.List.{AllByRecursion as Each};
    ghost use Rattle.onfi_audit.specs.Audit.{Audit as Left};

    ghost Value = { Left };

    ghost view = { λ a. record {
      timing = a.timing;
      rules = a.rules;
      bus_free = a.bus_free;
      luns = a.luns;
      wants = a.wants;
      accepted = a.accepted;
    } };

    ghost invariant = { λ a. Each (λ w. w.id < a.accepted) a.wants };
}

/// Why a request isn't accepted.
#[derive(Clone, Copy, Debug, PartialEq, Eq, Error)]
pub enum AcceptFault {
    /// The channel has no such LUN.
    #[error("the LUN isn't there")]
    NoLun,
    /// An erase that names another page than 0.
    #[error("an erase names page 0")]
    ErasePage,
    /// The lengths state no post for so many sectors.
    #[error("sectors without lengths")]
    NoLengths,
    /// There is no further number.
    #[error("2^64 requests were accepted")]
    Full,
    /// Memory was refused.
    #[error("memory was refused")]
    Memory,
}

impl Audit {
    /// A log that begins with the channel as a flight has it: lengths, rules, bus and LUNs. Nothing waits yet.
    pub fn of(alloc: Global, flight: &Flight) -> Audit
        ensures { result ≡ opening flight.now.now }
    {
        Audit {
            timing: flight.timing(),
            rules: flight.rules(),
            bus_free: flight.bus_free(),
            luns: Luns::of(flight.luns()),
            wants: Waiting::new(alloc),
            accepted: 0,
        }
    }

    /// A log that goes on where another stood: lengths and rules, from when on the bus is free in ns of the channel's clock, what
    /// each LUN does, and how many requests were accepted, which is the number of the next one. Nothing waits.
    pub fn resume(
        alloc: Global,
        timing: Timing,
        rules: Rules,
        bus_free: u64,
        stages: &[LunStage],
        accepted: u64,
    ) -> Audit
        requires { length stages.now ≤ 8 }
        ensures { result ≡ resuming timing rules bus_free stages.now accepted }
    {
        Audit {
            timing,
            rules,
            bus_free,
            luns: Luns::copy_of(stages),
            wants: Waiting::new(alloc),
            accepted,
        }
    }

    /// The same log once more, as far as it was judged.
    ///
    /// # Errors
    /// Where memory was refused.
    pub fn copy(&self) -> Result<Audit, AllocError>
        ensures { IfOk result (λ a. a ≡ self.now) }
    {
        let wants = self.wants.copy()?;
        Ok(Audit {
            timing: self.timing,
            rules: self.rules,
            bus_free: self.bus_free,
            luns: Luns::copy_of(self.luns.as_slice()),
            wants,
            accepted: self.accepted,
        })
    }

    /// The lengths of phases.
    pub fn timing(&self) -> Timing
        ensures { result ≡ self.now.timing }
    {
        self.timing
    }

    /// Which operations may be grouped.
    pub fn rules(&self) -> Rules
        ensures { result ≡ self.now.rules }
    {
        self.rules
    }

    /// How many requests were accepted: the number of the next one.
    pub fn accepted(&self) -> u64
        ensures { result ≡ self.now.accepted }
    {
        self.accepted
    }

    /// From when on the bus is free, in ns of the channel's clock.
    pub fn bus_free(&self) -> u64
        ensures { result ≡ self.now.bus_free }
    {
        self.bus_free
    }

    /// What each LUN does.
    pub fn luns(&self) -> &[LunStage]
        ensures { result.now ≡ self.now.luns }
    {
        self.luns.as_slice()
    }

    /// The requests that wait, in the order in which they were accepted, with their numbers.
    pub fn wants(&self) -> &[Want]
        ensures { result.now ≡ self.now.wants }
    {
        self.wants.as_slice()
    }

    /// The request that waits first on that block.
    pub fn first_on(&self, lun: u8, block: u16) -> Option<Want>
        ensures { result ≡ first_at self.now.wants lun block }
    {
        first_at(self.wants.as_slice(), lun, block)
    }

    /// Accepts a request after those before it; its number, counted from 0, is answered.
    ///
    /// # Errors
    /// The first of `NoLun`, `ErasePage`, `NoLengths`, `Full`, `Memory`; then nothing changes.
    pub fn accept(&mut self, kind: Kind, lun: u8, block: u16, page: u16) -> Result<u64, AcceptFault>
        ensures number { IfOk result (λ number. number ≡ self.old.accepted) }
        ensures accepted { IfOk result (λ _. self.new ≡ accepting self.old (request_of self.old kind lun block page)) }
        ensures is { IfOk result (λ _. IsAccepted self.old (request_of self.old kind lun block page)) }
        ensures refused { IfErr result (λ fault. (self.new ≡ self.old) × TellsFault self.old kind lun page fault) }
    {
        if usize::from(lun) >= self.luns.as_slice().len() {
            return Err(AcceptFault::NoLun);
        }
        if is_page_of_erase(kind, page) {
            return Err(AcceptFault::ErasePage);
        }
        if !self.timing.states(kind) {
            return Err(AcceptFault::NoLengths);
        }
        if self.accepted == u64::MAX {
            return Err(AcceptFault::Full);
        }
        let number = self.accepted;
        let want = Want {
            id: number,
            kind,
            lun,
            plane: plane_at(self.rules.plane_bits, block),
            block,
            page,
        };
        if self.wants.push(want).is_err() {
            return Err(AcceptFault::Memory);
        }
        self.accepted += 1;
        Ok(number)
    }

    /// Takes back the request that was accepted last, while it waits: the next one gets its number.
    pub fn withdraw(&mut self)
        requires { IsAccepting self.old }
        ensures { (before : Left) (want : AWant) → self.old ≡ accepting before want → self.new ≡ before }
    {
        self.wants.pop();
        self.accepted -= 1;
    }

    /// By how much the phase comes too soon, in ns, where it may come at all: 0 where bus and LUN wait for it.
    pub fn early_by(&self, line: &Line) -> u64
        ensures { result ≡ early_by self.now line.now }
    {
        self.earliest(line).saturating_sub(line.start)
    }

    // From when on the bus is free and the LUN may have the phase, if it may at all.
    fn earliest(&self, line: &Line) -> u64
        ensures { result ≡ earliest self.now line.now }
    {
        let stage = self.luns.as_slice().get(usize::from(line.lun));
        self.bus_free.max(from_on(stage, line))
    }

    /// The LUN does this from now on; one that isn't there does nothing.
    pub fn put_stage(&mut self, lun: u8, stage: LunStage)
        ensures { self.new ≡ with_stage self.old lun stage }
    {
        let at = usize::from(lun);
        if at < self.luns.as_slice().len() {
            self.luns.set(at, stage);
        }
    }

    /// What the line's LUN does, and what it would do where the log lacks the phases before the line: it is free before a command,
    /// and before a post of a member of its group that post is next. None where the line is a post of nothing that it runs, or the
    /// LUN isn't there.
    pub fn regain_stage(&self, line: &Line) -> Option<(LunStage, LunStage)>
        ensures there { IfSome result (λ p. slice_get self.now.luns line.now.lun ≡ Some p.0) }
        ensures some { IfSome result (λ p. IsRegained p.0 line.now p.1) }
        ensures none { IfNone result (IsStray (slice_get self.now.luns line.now.lun) line.now) }
    {
        let stage = self.luns.as_slice().get(usize::from(line.lun))?;
        if !line.is_post {
            return Some((stage.copy(), LunStage::Free { since: 0 }));
        }
        let group = group_on(stage)?;
        let (at, _) = find_named(group.members(), line)?;
        let next = (group.len() + at) as u8;
        let regained = LunStage::Running {
            group,
            next,
            ready: 0,
        };
        Some((stage.copy(), regained))
    }

    /// What the line's LUN does where the line is the status of a member of the group that it runs, as though the group had that
    /// member alone. None where it is none: the line is a command or an output, or the LUN doesn't wait for a post of that member.
    pub fn find_alone(&self, line: &Line) -> Option<LunStage>
        ensures some { IfSome result (IsAlone (slice_get self.now.luns line.now.lun) line.now) }
        ensures none { IfNone result ((x : AStage) → IsAlone (slice_get self.now.luns line.now.lun) line.now x → ⊥) }
    {
        let stage = self.luns.as_slice().get(usize::from(line.lun))?;
        if !line.is_post || line.operation == Operation::Read {
            return None;
        }
        let (group, ready) = awaited(stage)?;
        let (_, member) = find_named(group.members(), line)?;
        let alloc = self.wants.alloc();
        Some(LunStage::Running {
            group: Group::of(alloc, &[member]),
            next: 1,
            ready,
        })
    }

    /// The LUN is reported ready at that moment, in ns: what its group has next may come from then on, or as it might before
    /// where that is sooner. A LUN that is free stays so.
    pub fn ready(&mut self, lun: u8, moment: u64)
        ensures { self.new ≡ readied self.old lun moment }
    {
        let at = usize::from(lun);
        if let Some(stage) = self.luns.as_slice().get(at) {
            let sooner = ready_by(stage, moment);
            self.luns.set(at, sooner);
        }
    }
}

ghost use Rattle.onfi_timing.specs.declared.kind.Kind.TheVariants.{Erase};
ghost use Rattle.onfi_audit.specs.Audit.{readied_stage};

// From when on a LUN may have the phase of a line.
fn from_on(stage: Option<&LunStage>, line: &Line) -> u64
    ensures { result ≡ from_on (option_map (λ s. s.now) stage.entry) line.now }
{
    match stage {
        None => 0,
        Some(LunStage::Free { since }) => *since,
        Some(LunStage::Running { ready, .. }) => *ready,
        Some(LunStage::Open { more, ready, .. }) => if line.is_post { *ready } else { *more },
    }
}

// The group that a LUN runs.
fn group_on(stage: &LunStage) -> Option<Group>
    ensures some { IfSome result (IsGroupOn (Some stage.now)) }
    ensures none { IfNone result ((group : List AWant) → IsGroupOn (Some stage.now) group → ⊥) }
{
    match stage {
        LunStage::Free { .. } => None,
        LunStage::Running { group, .. } | LunStage::Open { group, .. } => Some(group.copy()),
    }
}

// The group of which a LUN has its posts next, and from when on.
fn awaited(stage: &LunStage) -> Option<(Group, u64)>
    ensures some { IfSome result (λ p. AwaitsPosts (Some stage.now) p.0 p.1) }
    ensures none { IfNone result ((group : List AWant) (ready : ℕ) → AwaitsPosts (Some stage.now) group ready → ⊥) }
{
    match stage {
        LunStage::Free { .. } => None,
        LunStage::Running { group, next, ready } => {
            if usize::from(*next) < group.len() {
                return None;
            }
            Some((group.copy(), *ready))
        }
        LunStage::Open { group, ready, .. } => Some((group.copy(), *ready)),
    }
}

// Whether an erase names another page than 0.
fn is_page_of_erase(kind: Kind, page: u16) -> bool
    ensures other { result ≡ true → (kind ≡ Erase) × (page ≢ 0) }
    ensures none { result ≡ false → kind ≡ Erase → page ≡ 0 }
{
    kind == Kind::Erase && page != 0
}

// What a LUN does that is ready then.
fn ready_by(stage: &LunStage, moment: u64) -> LunStage
    ensures { result ≡ readied_stage moment stage.now }
{
    match stage {
        LunStage::Free { since } => LunStage::Free { since: *since },
        LunStage::Running { group, next, ready } => LunStage::Running {
            group: group.copy(),
            next: *next,
            ready: (*ready).min(moment),
        },
        LunStage::Open { group, more, ready } => LunStage::Open {
            group: group.copy(),
            more: (*more).min(moment),
            ready: (*ready).min(moment),
        },
    }
}
