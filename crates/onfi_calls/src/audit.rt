//! What a log has left, in memory of the caller's.
ghost use Rattle.std.specs.Prelude.{◌≡◌, ◌≤◌, false, length, map, replicate, IfOk, IfErr};
ghost use Rattle.onfi_audit.specs.declared.stage.LunStage.TheVariants.{Free};
ghost use Rattle.std.specs.List.{AllByRecursion as Each, list_any};
ghost use Rattle.onfi_calls.specs.Audit as spec;
ghost use Rattle.onfi_calls.specs.Problem.{has_bad_count};
ghost use Rattle.onfi_calls.specs.PlainSchedule.{filled};

use crate::channel::{PlainChannel, PlainLun};
use crate::problem::{read_timing, rules, state_of};
use crate::ran::{NO_WANT, plain_members};
use crate::status::Status;
use onfi_audit::{Audit, LunStage};
use onfi_group::Group;
use onfi_problem::LunState;
use std::alloc::Global;

/// What a log has of a LUN besides what the channel says of it. Where `is_open` isn't 0 its group may get more members: a further
/// command from `more` on, in ns, and the first post from the LUN's `since`.
#[repr(C)]
#[derive(Clone, Copy)]
pub struct PlainStage {
    pub more: u64,
    pub is_open: u8,
}

/// What a log has left: the channel as it stands, how many requests began, and what else each of its LUNs does.
#[repr(C)]
#[derive(Clone, Copy)]
pub struct PlainAudit {
    pub channel: PlainChannel,
    pub accepted: u64,
    pub stage: [PlainStage; 8],
}

/// A LUN that is free from 0 on.
const NO_LUN: PlainLun = PlainLun {
    since: 0,
    members: 0,
    next: 0,
    member: [NO_WANT; 4],
};

/// No group that may get more members.
pub const NO_STAGE: PlainStage = PlainStage {
    more: 0,
    is_open: 0,
};

/// What a LUN does; this takes no memory.
fn stage_of(alloc: Global, plane_bits: u8, lun: &PlainLun, said: &PlainStage) -> LunStage
    requires bits { plane_bits ≤ 2 }
    requires members { has_bad_count lun.now ≡ false }
    ensures { result ≡ spec.stage_of plane_bits lun.now said.now }
{
    match state_of(alloc, plane_bits, lun) {
        LunState::Free { since } => LunStage::Free { since },
        LunState::Running { group, next, ready } => {
            if said.is_open == 0 {
                LunStage::Running { group, next, ready }
            } else {
                LunStage::Open {
                    group,
                    more: said.more,
                    ready,
                }
            }
        }
    }
}

/// Eight LUNs that are free from 0 on.
fn free_stages() -> [LunStage; 8]
    ensures { result ≡ replicate 8 (Free 0) }
{
    [
        LunStage::Free { since: 0 },
        LunStage::Free { since: 0 },
        LunStage::Free { since: 0 },
        LunStage::Free { since: 0 },
        LunStage::Free { since: 0 },
        LunStage::Free { since: 0 },
        LunStage::Free { since: 0 },
        LunStage::Free { since: 0 },
    ]
}

/// What each of at most eight LUNs does, and free ones after them; this takes no memory.
fn stages_of(
    alloc: Global,
    plane_bits: u8,
    luns: &[PlainLun],
    said: &[PlainStage; 8],
) -> [LunStage; 8]
    requires bits { plane_bits ≤ 2 }
    requires few { length luns.now ≤ 8 }
    requires members { list_any has_bad_count luns.now ≡ false }
    ensures { result ≡ filled 8 (Free 0) (spec.stages_of plane_bits luns.now said.now) }
{
    let mut stages = free_stages();
    for (at, lun) in luns.iter().enumerate() {
        stages[at] = stage_of(alloc, plane_bits, lun, &said[at]);
    }
    stages
}

/// What the log has left.
pub fn audit_of(alloc: Global, said: &PlainAudit) -> Result<Audit, Status>
    ensures said { IfOk result (spec.IsAuditSaid said.now) }
    ensures none { IfErr result (spec.IsNoAudit said.now) }
{
    let channel = &said.channel;
    let timing = match read_timing(channel, &[]) {
        Ok(timing) => timing,
        Err(status) => return Err(status),
    };
    let luns = &channel.lun[..channel.lun_count as usize];
    let stages = stages_of(alloc, channel.rules.plane_bits, luns, &said.stage);
    Ok(Audit::resume(
        alloc,
        timing,
        rules(&channel.rules),
        channel.bus_free,
        &stages[..luns.len()],
        said.accepted,
    ))
}

/// A LUN that runs this group.
fn with_group(group: &Group, next: u8, since: u64) -> PlainLun
    ensures value { result ≡ spec.with_group group.now next since }
    ensures some { 1 ≤ length group.now }
    ensures few { length group.now ≤ 4 }
{
    PlainLun {
        since,
        members: group.len() as u8,
        next,
        member: plain_members(group.members()),
    }
}

/// The LUN that does this, as a plain struct.
fn plain_lun(stage: &LunStage) -> PlainLun
    ensures value { result ≡ spec.written_lun stage.now }
    ensures fit { spec.IsFit stage.now }
{
    match stage {
        LunStage::Free { since } => PlainLun {
            since: *since,
            ..NO_LUN
        },
        LunStage::Running { group, next, ready } => with_group(group, *next, *ready),
        LunStage::Open { group, ready, .. } => with_group(group, 0, *ready),
    }
}

/// .. and what else it does.
fn plain_stage(stage: &LunStage) -> PlainStage
    ensures { result ≡ spec.written_stage stage.now }
{
    match stage {
        LunStage::Open { more, .. } => PlainStage {
            more: *more,
            is_open: 1,
        },
        LunStage::Free { .. } | LunStage::Running { .. } => NO_STAGE,
    }
}

/// Each of at most eight LUNs, and free ones after them.
fn plain_luns(stages: &[LunStage]) -> [PlainLun; 8]
    requires few { length stages.now ≤ 8 }
    ensures value { result ≡ filled 8 spec.no_lun (map spec.written_lun stages.now) }
    ensures fit { Each spec.IsFit stages.now }
{
    let mut all = [NO_LUN; 8];
    for (at, stage) in stages.iter().enumerate() {
        all[at] = plain_lun(stage);
    }
    all
}

/// .. and what else they do.
fn plain_stages(stages: &[LunStage]) -> [PlainStage; 8]
    requires few { length stages.now ≤ 8 }
    ensures { result ≡ filled 8 spec.no_stage (map spec.written_stage stages.now) }
{
    let mut all = [NO_STAGE; 8];
    for (at, stage) in stages.iter().enumerate() {
        all[at] = plain_stage(stage);
    }
    all
}

/// Has a struct keep what the log has left, on the same channel.
pub fn keep(said: &mut PlainAudit, audit: &Audit)
    requires few { length audit.now.luns ≤ 8 }
    ensures kept { said.new ≡ spec.kept said.old audit.now }
    ensures fit { Each spec.IsFit audit.now.luns }
{
    let stages = audit.luns();
    said.channel.bus_free = audit.bus_free();
    said.channel.lun_count = stages.len() as u8;
    said.channel.lun = plain_luns(stages);
    said.accepted = audit.accepted();
    said.stage = plain_stages(stages);
}
