//! What a host does at a moment: the step of which a run by a clock and a host's thread are made.
ghost use Rattle.std.specs.Prelude.{◌≡◌, ℕ, Bool, List, IsTrue, false};
ghost use Rattle.onfi_request.specs.declared.request.Request.{Request as ARequest};
ghost use Rattle.onfi_run.specs.Keys.{HasSamePorts};
ghost use Rattle.onfi_run.specs.Moments.{Acts, AtMoment, Makes};
ghost use Rattle.onfi_run.specs.Requests.{request_of};
ghost use Rattle.onfi_run.specs.Resting.{IsPutOff, Rests, Stands};
ghost use Rattle.onfi_run.specs.Sending.{AreSending, with_request};

use crate::arriving::comes_at;
use crate::channels::Channels;
use crate::finishing::either;
use crate::operations::operation_of;
use crate::station::Station;
use onfi_addr::Geometry;
use onfi_script::{Operation, Row};
use std::alloc::Global;
use std::sync::Wait;

/// What all hosts and channels of a run share.
#[derive(Clone, Copy)]
pub(crate) struct Course<'s> {
    pub(crate) alloc: Global,
    pub(crate) geometry: &'s Geometry,
    pub(crate) rows: &'s [Row],
}

/// The host makes an operation at that moment, or leaves it out, and answers whether it is past it then: else the queue of
/// its channel is full.
fn make<R: Wait, A: Channels>(
    rt: &R,
    course: &Course<'_>,
    now: u64,
    channels: &mut A,
    station: &mut Station,
    operation: &Operation,
) -> bool
    ensures queues { A.queues channels.new ≡ A.queues channels.old }
    ensures same { HasSamePorts station.old.ports.items station.new.ports.items }
    ensures number { station.new.number ≡ station.old.number }
    ensures passed { station.new.passed ≡ station.old.passed }
    ensures sent { IsTrue result → (requests : ℕ → List ARequest) → AreSending requests station.old.ports.items
        → AreSending (with_request requests operation.now.aim.channel (request_of course.now.geometry.now operation.now)) station.new.ports.items }
    ensures made { IsTrue result → (ended : Bool) × A.ended channels.old operation.now.aim.channel ended
        × Makes now operation.now.aim.channel (request_of course.now.geometry.now operation.now) ended station.old station.new }
    ensures woken { IsTrue result → A.woken channels.old operation.now.aim.channel channels.new }
    ensures waits { result ≡ false → (channels.new ≡ channels.old) × (station.new.ports.items ≡ station.old.ports.items)
        × IsPutOff (A.ended channels.old) station.old.ports.items operation.now.aim.channel }
    ensures moments { AtMoment now station.old.ports.items station.new.ports.items }
{
    let channel = usize::from(operation.aim.channel);
    let ended = channels.has_ended(channel);
    let made = station.operate_at(rt, course.alloc, course.geometry, now, ended, operation);
    if made {
        channels.wake(channel);
    }
    made
}

/// The host goes past its next row at that moment, and answers whether it did: it doesn't where none is left, where the row
/// gives a moment of arrival that hasn't come, or where the queue of its operation is full.
fn pass_row<R: Wait, A: Channels>(
    rt: &R,
    course: &Course<'_>,
    now: u64,
    channels: &mut A,
    station: &mut Station,
) -> bool
    ensures queues { A.queues channels.new ≡ A.queues channels.old }
    ensures acts { Acts course.now.geometry.now course.now.rows.now now station.old station.new }
    ensures stands { result ≡ false → (channels.new ≡ channels.old) × (station.new.ports.items ≡ station.old.ports.items) × (station.new.passed ≡ station.old.passed)
        × Stands now course.now.rows.now (A.ended channels.old) station.old.number station.old.passed station.old.ports.items }
{
    let at = station.passed;
    if at >= course.rows.len() {
        return false;
    }
    let comes = comes_at(course.rows, at);
    if comes > now {
        return false;
    }
    let Some(operation) = operation_of(&course.rows[at], station.number) else {
        station.passed += 1;
        return true;
    };
    if !make(rt, course, now, channels, station, operation) {
        return false;
    }
    station.passed = at + 1;
    true
}

/// The host goes past its next rows at that moment as long as queues have room, and answers whether it went past one.
fn pass_rows<R: Wait, A: Channels>(
    rt: &R,
    course: &Course<'_>,
    now: u64,
    channels: &mut A,
    station: &mut Station,
) -> bool
    ensures queues { A.queues channels.new ≡ A.queues channels.old }
    ensures acts { Acts course.now.geometry.now course.now.rows.now now station.old station.new }
    ensures stands { result ≡ false → (channels.new ≡ channels.old) × (station.new.ports.items ≡ station.old.ports.items) × (station.new.passed ≡ station.old.passed)
        × Stands now course.now.rows.now (A.ended channels.old) station.old.number station.old.passed station.old.ports.items }
{
    let mut any = false;
    for _ in course.rows {
        if !pass_row(rt, course, now, channels, station) {
            break;
        }
        any = true;
    }
    any
}

/// The host submits what queues have room for at that moment, and collects a reply of each inbox; whether it did anything.
pub(crate) fn act<R: Wait, A: Channels>(
    rt: &R,
    course: &Course<'_>,
    now: u64,
    channels: &mut A,
    station: &mut Station,
) -> bool
    ensures queues { A.queues channels.new ≡ A.queues channels.old }
    ensures same { HasSamePorts station.old.ports.items station.new.ports.items }
    ensures acts { Acts course.now.geometry.now course.now.rows.now now station.old station.new }
    ensures rests { result ≡ false → (channels.new ≡ channels.old) × Rests now course.now.rows.now (A.ended channels.new) station.new }
{
    let passed = pass_rows(rt, course, now, channels, station);
    let collected = station.collect_all(rt, now);
    either(passed, collected)
}
