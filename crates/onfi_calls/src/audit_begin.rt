//! Logs that begin with a channel as a caller says it.
ghost use Rattle.std.specs.Prelude.{◌≡◌, []};
ghost use Rattle.onfi_calls.specs.AuditBegun as spec;
ghost use Rattle.onfi_calls.specs.Refused.{IsMeasured};

use crate::audit::{NO_STAGE, PlainAudit};
use crate::channel::PlainChannel;
use crate::problem::{few_states_of, measure_few, rules};
use crate::status::Status;
use onfi_problem::find_fault;
use onfi_timing::Timing;
use std::alloc::Global;

/// Has a struct keep what a log has left that begins with the channel, unless that is no problem.
fn begin(alloc: Global, timing: &Timing, channel: &PlainChannel, audit: &mut PlainAudit) -> u32
    requires { IsMeasured channel.now [] timing.now }
    ensures { spec.GivesAudit channel.now audit.old audit.new result }
{
    let luns = &channel.lun[..channel.lun_count as usize];
    let states = few_states_of(alloc, channel.rules.plane_bits, luns);
    let states = &states[..luns.len()];
    let rules = rules(&channel.rules);
    match find_fault(timing, &rules, channel.bus_free, states, &[]) {
        Some(fault) => Status::of_problem(fault).number(),
        None => {
            *audit = PlainAudit {
                channel: *channel,
                accepted: 0,
                stage: [NO_STAGE; 8],
            };
            0
        }
    }
}

/// Has a struct keep what a log has left that begins with the channel as it is said;
/// [`onfi_audit_phase`](crate::audit_phase::onfi_audit_phase) judges the phases of the log, one at a time. This asks for no memory.
///
/// Answers 0; or the first of the numbers that [`onfi_plan`](crate::plan::onfi_plan) answers for the channel, but for `Memory`, and
/// all is as it was.
pub fn onfi_audit_begin(alloc: Global, channel: &PlainChannel, audit: &mut PlainAudit) -> u32
    ensures { spec.GivesAudit channel.now audit.old audit.new result }
{
    match measure_few(alloc, channel, &[]) {
        Ok(timing) => begin(alloc, &timing, channel, audit),
        Err(status) => status.number(),
    }
}
