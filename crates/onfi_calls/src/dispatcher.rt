//! What is kept of a channel that goes phase by phase, in memory of the caller's.
ghost use Rattle.std.specs.Prelude.{◌≡◌, ◌≤◌, [], length, IfOk, IfErr};
ghost use Rattle.std.specs.List.{AllByRecursion as Each, list_any};
ghost use Rattle.onfi_calls.specs.Dispatching as spec;
ghost use Rattle.onfi_problem.specs.Kept.{problem_of};
ghost use Rattle.onfi_steady.specs.LunBooks.{HasPhaseLeft};

use crate::channel::{PlainChannel, PlainLun, PlainWant};
use crate::device::PlainGeometry;
use crate::geometry::geometry_of;
use crate::plain_dispatcher::{KeptDevice, PlainDispatcher};
use crate::problem::{few_states_of, measure_few, rules};
use crate::status::Status;
use onfi_group::Rules;
use onfi_problem::{LunState, find_fault};
use onfi_steady::Dispatcher;
use onfi_timing::Timing;
use std::alloc::Global;

/// Whether the device has the page that a request names.
pub fn is_on(geometry: &PlainGeometry, want: &PlainWant) -> bool
    ensures { result ≡ spec.is_on geometry.now want.now }
{
    want.lun < geometry.lun_count
        && u32::from(want.block) < geometry.blocks_per_lun
        && want.page < geometry.pages_per_block
}

/// Whether it lacks the page of a member of what a LUN runs.
fn has_outside(geometry: &PlainGeometry, lun: &PlainLun) -> bool
    ensures { result ≡ spec.has_outside geometry.now lun.now }
{
    lun.member
        .iter()
        .take(lun.members as usize)
        .any(|want| !is_on(geometry, want))
}

/// The same of several LUNs.
fn have_outside(geometry: &PlainGeometry, luns: &[PlainLun]) -> bool
    ensures { result ≡ list_any (spec.has_outside geometry.now) luns.now }
{
    luns.iter().any(|lun| has_outside(geometry, lun))
}

/// What is kept of a channel with these lengths and rules, whose LUNs do that.
fn keep(
    timing: &Timing,
    rules: Rules,
    states: &[LunState],
    channel: &PlainChannel,
    geometry: &PlainGeometry,
) -> Result<PlainDispatcher, Status>
    requires some { 1 ≤ length states.now }
    requires few { length states.now ≤ 8 }
    requires few_luns { channel.now.lun_count ≤ 8 }
    requires left { Each HasPhaseLeft states.now }
    requires bits { channel.now.rules.plane_bits ≤ 2 }
    ensures begun { IfOk result (spec.IsBegunOf (problem_of timing.now rules channel.now.bus_free states.now []) channel.now geometry.now) }
    ensures none { IfErr result (spec.IsNoDevice channel.now geometry.now) }
{
    if geometry_of(geometry).is_none() {
        return Err(Status::BadGeometry);
    }
    if have_outside(geometry, &channel.lun[..channel.lun_count as usize]) {
        return Err(Status::BadPlace);
    }
    Ok(PlainDispatcher {
        dispatcher: Dispatcher::with_luns(timing, rules, channel.bus_free, states),
        device: KeptDevice {
            lengths: channel.lengths,
            geometry: *geometry,
            plane_bits: channel.rules.plane_bits,
        },
    })
}

/// What is kept of the channel that is said, or why there is none.
fn begin(
    alloc: Global,
    channel: &PlainChannel,
    geometry: &PlainGeometry,
) -> Result<PlainDispatcher, Status>
    ensures begun { IfOk result (spec.IsBegun channel.now geometry.now) }
    ensures none { IfErr result (spec.IsUnbegun channel.now geometry.now) }
{
    let timing = match measure_few(alloc, channel, &[]) {
        Ok(timing) => timing,
        Err(status) => return Err(status),
    };
    let luns = &channel.lun[..channel.lun_count as usize];
    let states = few_states_of(alloc, channel.rules.plane_bits, luns);
    let states = &states[..luns.len()];
    let rules = rules(&channel.rules);
    match find_fault(&timing, &rules, channel.bus_free, states, &[]) {
        Some(fault) => Err(Status::of_problem(fault)),
        None => keep(&timing, rules, states, channel, geometry),
    }
}

/// Has a dispatcher begin with the channel and the device as they are said: nothing waits. Both are looked at here, and by no later
/// call. This asks for no memory.
///
/// Answers 0; or the first of the numbers that [`onfi_audit_begin`](crate::audit_begin::onfi_audit_begin) answers, of
/// `BadGeometry`, and of `BadPlace` where the device lacks the page of what a LUN runs; and all is as it was.
pub fn onfi_dispatcher_begin(
    alloc: Global,
    dispatcher: &mut PlainDispatcher,
    channel: &PlainChannel,
    geometry: &PlainGeometry,
) -> u32
    ensures { spec.GivesBegun channel.now geometry.now dispatcher.old dispatcher.new result }
{
    match begin(alloc, channel, geometry) {
        Ok(begun) => {
            *dispatcher = begun;
            0
        }
        Err(status) => status.number(),
    }
}
