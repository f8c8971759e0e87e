//! Audits of logs, for C.
ghost use Rattle.onfi_calls.specs.AuditBegun as audit_begun_spec;
ghost use Rattle.onfi_calls.specs.AuditPhase as audit_phase_spec;

use onfi_calls::{PlainAudit, PlainChannel, PlainLogBroken, PlainPhase};
use std::alloc::Global;

/// Is [`onfi_audit_begin`](onfi_calls::onfi_audit_begin) for C.
#[unsafe(no_mangle)]
pub extern "C" fn onfi_audit_begin(
    alloc: Global,
    channel: &PlainChannel,
    audit: &mut PlainAudit,
) -> u32
    ensures { audit_begun_spec.GivesAudit channel.now audit.old audit.new result }
{
    onfi_calls::onfi_audit_begin(alloc, channel, audit)
}

/// Is [`onfi_audit_phase`](onfi_calls::onfi_audit_phase) for C.
#[unsafe(no_mangle)]
pub extern "C" fn onfi_audit_phase(
    alloc: Global,
    audit: &mut PlainAudit,
    phase: &PlainPhase,
    broken: &mut PlainLogBroken,
) -> u32
    ensures { audit_phase_spec.GivesPhase audit.old audit.new phase.now broken.old broken.new result }
{
    onfi_calls::onfi_audit_phase(alloc, audit, phase, broken)
}

/// Is [`onfi_audit_ready`](onfi_calls::onfi_audit_ready) for C.
#[unsafe(no_mangle)]
pub extern "C" fn onfi_audit_ready(
    alloc: Global,
    audit: &mut PlainAudit,
    lun: u8,
    moment: u64,
) -> u32
    ensures { audit_phase_spec.GivesReady audit.old audit.new lun moment result }
{
    onfi_calls::onfi_audit_ready(alloc, audit, lun, moment)
}
