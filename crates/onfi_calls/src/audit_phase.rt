//! Phases of a log, judged one at a time.
ghost use Rattle.std.specs.Prelude.{◌≡◌, ℕ, ◌≤◌, ◌<◌, ◌^◌, nat_lt, length, IfOk, IfErr};
ghost use Rattle.onfi_calls.specs.AuditPhase as spec;
ghost use Rattle.onfi_calls.specs.Audit.{IsAuditSaid};
ghost use Rattle.onfi_audit.specs.Audit.{Audit as Left, after_line};

use crate::audit::{PlainAudit, audit_of, keep};
use crate::log_broken::{PlainLogBroken, UNBROKEN, plain_log_breach};
use crate::phase::PlainPhase;
use crate::problem::kind_of;
use crate::status::Status;
use onfi_audit::{AcceptFault, Audit, Line, LogBreach, LunStage};
use std::alloc::Global;

/// No phase that is judged starts as late as this, in ns.
const LATE: u64 = 1 << 62;

/// What is found of a phase.
#[derive(Drop)]
pub enum Verdict {
    /// It is legal, and ran.
    Legal,
    /// It ran, but came too soon.
    TooSoon(LogBreach),
    /// It breaks another condition, and counts as not there.
    Broken(LogBreach),
}

/// Whether the number is neither that of a kind nor that of a read of some sectors.
fn is_bad_kind(kind: u8) -> bool
    ensures { result ≡ spec.is_bad_kind kind }
{
    kind > 2 && kind % 32 != 0
}

/// A phase, as a log has it.
fn line_of(phase: &PlainPhase) -> Line
    ensures { result ≡ spec.line_of phase.now }
{
    Line {
        start: phase.start,
        lun: phase.lun,
        operation: kind_of(phase.kind).operation(),
        is_post: phase.is_post,
        block: phase.block,
        page: phase.page,
    }
}

/// Whether the phase is a command that begins a request.
fn begins(audit: &Audit, phase: &PlainPhase) -> bool
    ensures { result ≡ spec.begins audit.now phase.now }
{
    if phase.is_post {
        return false;
    }
    match audit.luns().get(usize::from(phase.lun)) {
        Some(LunStage::Free { .. } | LunStage::Open { .. }) => true,
        Some(LunStage::Running { .. }) | None => false,
    }
}

/// Why a request isn't accepted.
fn accept_status(fault: AcceptFault) -> Status
    ensures { result ≡ spec.accept_status fault }
{
    match fault {
        AcceptFault::NoLun | AcceptFault::ErasePage => Status::BadLun,
        AcceptFault::NoLengths => Status::NoLengths,
        AcceptFault::Full => Status::TooMany,
        AcceptFault::Memory => Status::Memory,
    }
}

/// Accepts the request that the phase begins, if it begins one.
fn bring(audit: &mut Audit, phase: &PlainPhase) -> Result<(), Status>
    ensures brought { IfOk result (λ _. spec.Brought audit.old phase.now audit.new) }
    ensures none { IfErr result (spec.IsUnbrought audit.old phase.now) }
{
    if !begins(audit, phase) {
        return Ok(());
    }
    match audit.accept(kind_of(phase.kind), phase.lun, phase.block, phase.page) {
        Ok(_) => Ok(()),
        Err(fault) => Err(accept_status(fault)),
    }
}

/// What the log has left, with the request that the phase begins.
fn ask(alloc: Global, said: &PlainAudit, phase: &PlainPhase) -> Result<Audit, Status>
    ensures asked { IfOk result (spec.IsAsked said.now phase.now) }
    ensures time { IfOk result (λ _. phase.now.start < 2 ^ 62) }
    ensures none { IfErr result (spec.IsUnjudged said.now phase.now) }
{
    let mut audit = match audit_of(alloc, said) {
        Ok(audit) => audit,
        Err(status) => return Err(status),
    };
    if is_bad_kind(phase.kind) {
        return Err(Status::BadKind);
    }
    if phase.start >= LATE {
        return Err(Status::Clock);
    }
    match bring(&mut audit, phase) {
        Ok(()) => Ok(audit),
        Err(status) => Err(status),
    }
}

/// Judges a phase, which runs where it is legal or only comes too soon.
fn judge(audit: &mut Audit, line: &Line) -> Verdict
    requires { line.now.start < 2 ^ 62 }
    ensures { spec.IsVerdict audit.old line.now audit.new result }
{
    match audit.judge(line) {
        Ok(()) => Verdict::Legal,
        Err(breach) => {
            if audit.run_anyway(line) {
                Verdict::TooSoon(breach)
            } else {
                Verdict::Broken(breach)
            }
        }
    }
}

/// Has a struct keep what is left once a phase ran that was asked of it.
fn keep_after(said: &mut PlainAudit, phase: &PlainPhase, audit: &Audit)
    requires few { length audit.now.luns ≤ 8 }
    ensures { (before : Left) → spec.IsAsked said.old phase.now before → audit.now ≡ after_line before (spec.line_of phase.now)
        → IsAuditSaid said.new audit.now }
{
    keep(said, audit);
}

/// Judges the next phase of a log after what a struct of the caller's has left: the phase happens where it is legal, or only comes too
/// soon; where it breaks another condition it counts as not there. Of the phase start, LUN, kind, block, page and whether it is a post
/// are looked at. A command on a LUN that is free, or that has had commands alone, begins a request of its own.
///
/// Answers 0 where it is legal; the number of `Illegal` where it isn't, with the condition; else the first of those of `TooMany` where the
/// struct has more than eight LUNs, of what [`onfi_plan`](crate::planning::onfi_plan) answers for its lengths, plane bits, members and
/// kinds, of `BadKind`, of `Clock` where the phase starts at 2^62 ns or later, and where it begins a request of `BadLun` where
/// that is an erase of another page than 0, of `NoLengths`, of `TooMany` where 2^64 - 1 requests began, and of `Memory`; and all is as it was.
pub fn onfi_audit_phase(
    alloc: Global,
    audit: &mut PlainAudit,
    phase: &PlainPhase,
    broken: &mut PlainLogBroken,
) -> u32
    ensures { spec.GivesPhase audit.old audit.new phase.now broken.old broken.new result }
{
    let mut left = match ask(alloc, audit, phase) {
        Ok(left) => left,
        Err(status) => return status.number(),
    };
    match judge(&mut left, &line_of(phase)) {
        Verdict::Legal => {
            keep_after(audit, phase, &left);
            *broken = UNBROKEN;
            0
        }
        Verdict::TooSoon(breach) => {
            keep_after(audit, phase, &left);
            *broken = plain_log_breach(breach);
            Status::Illegal.number()
        }
        Verdict::Broken(breach) => {
            *broken = plain_log_breach(breach);
            Status::Illegal.number()
        }
    }
}

/// Whether the channel has that LUN.
fn is_there(audit: &Audit, lun: u8) -> bool
    ensures { result ≡ nat_lt lun (length audit.now.luns) }
{
    usize::from(lun) < audit.luns().len()
}

/// What the log has left once the LUN was ready at that moment.
fn ready_by(alloc: Global, said: &PlainAudit, lun: u8, moment: u64) -> Result<Audit, Status>
    ensures ready { IfOk result (spec.IsReadied said.now lun moment) }
    ensures none { IfErr result (spec.IsUnready said.now lun) }
{
    let mut audit = match audit_of(alloc, said) {
        Ok(audit) => audit,
        Err(status) => return Err(status),
    };
    if is_there(&audit, lun) {
        audit.ready(lun, moment);
        return Ok(audit);
    }
    Err(Status::BadLun)
}

/// Has a struct keep what is left once the LUN was ready at that moment.
fn keep_ready(said: &mut PlainAudit, audit: &Audit)
    requires few { length audit.now.luns ≤ 8 }
    ensures { (lun moment : ℕ) → spec.IsReadied said.old lun moment audit.now → IsAuditSaid said.new audit.now }
{
    keep(said, audit);
}

/// Notes that a LUN was reported ready at that moment, in ns: what its group has next may come from then on, or as it might before where
/// that is sooner. A LUN that is free stays so.
///
/// Answers 0; or the first of the numbers that [`onfi_audit_phase`] answers for the struct, and of `BadLun` where the channel has no such
/// LUN; and all is as it was.
pub fn onfi_audit_ready(alloc: Global, audit: &mut PlainAudit, lun: u8, moment: u64) -> u32
    ensures { spec.GivesReady audit.old audit.new lun moment result }
{
    match ready_by(alloc, audit, lun, moment) {
        Ok(left) => {
            keep_ready(audit, &left);
            0
        }
        Err(status) => status.number(),
    }
}
