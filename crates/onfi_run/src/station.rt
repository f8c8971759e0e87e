//! A host with its ends on all channels.
ghost use Rattle.std.specs.Prelude.{◌≡◌, ℕ, [], ◌∷◌, List, map, IsTrue, IfSome, false, true, slice_get};
ghost use Rattle.std.specs.List.{AllByRecursion as Each};
ghost use Rattle.onfi_request.specs.declared.request.Request.{Request as ARequest};
ghost use Rattle.onfi_run.specs.Keys.{Collects, HasSamePorts, LeavesOut, SendsNothing, Submits};
ghost use Rattle.onfi_run.specs.Moments.{AtMoment, Makes, OnPort};
ghost use Rattle.onfi_run.specs.Requests.{request_of as spec_request_of};
ghost use Rattle.onfi_run.specs.Resting.{IsEmptied, IsFullAt};
ghost use Rattle.onfi_run.specs.Sending.{AreSending, HasSent, with_request};

use crate::acts::{Course, act};
use crate::board::Board;
use crate::finishing::either;
use crate::port::Port;
use crate::request::request_of;
use onfi_addr::Geometry;
use onfi_request::Request;
use onfi_script::{Operation, Row};
use std::alloc::Global;
use std::sync::Wait;
use std::thread;

/// The moment of all that is done in a run without a clock.
pub(crate) const NO_MOMENT: u64 = 0;

/// A host with its ends on all channels.
#[derive(Drop)]
pub(crate) struct Station {
    pub(crate) number: u8,
    /// By channel.
    pub(crate) ports: Vec<Port>,
    /// How many rows it is past.
    pub(crate) passed: usize,
    pub(crate) short_of_memory: bool,
}

/// The elements of an array with one for each host, apart.
pub(crate) fn split_hosts<T>(of: [T; 4]) -> (T, T, T, T)
    ensures { of ≡ result.0 ∷ result.1 ∷ result.2 ∷ result.3 ∷ [] }
{
    let [first, second, third, fourth] = of;
    (first, second, third, fourth)
}

/// Lets other threads run, where nothing was done.
fn yield_unless(acted: bool) {
    if !acted {
        thread::yield_now();
    }
}

impl Station {
    /// Collects the next reply of one inbox at that moment, and answers whether there was one.
    fn collect<R: Wait>(&mut self, rt: &R, now: u64, channel: usize) -> bool
        ensures number { self.new.number ≡ self.old.number }
        ensures passed { self.new.passed ≡ self.old.passed }
        ensures same { SendsNothing self.old.ports.items self.new.ports.items }
        ensures short { self.new.short_of_memory ≡ self.old.short_of_memory }
        ensures collected { OnPort (Collects now result) channel self.old.ports.items self.new.ports.items }
        ensures emptied { result ≡ false → (self.new.ports.items ≡ self.old.ports.items) × IfSome (slice_get self.old.ports.items channel) IsEmptied }
        ensures moments { AtMoment now self.old.ports.items self.new.ports.items }
    {
        if channel < self.ports.len() {
            self.ports[channel].collect(rt, now)
        } else {
            false
        }
    }

    /// Collects what waits in each inbox at that moment, one reply of each, and answers whether there was one.
    pub(crate) fn collect_all<R: Wait>(&mut self, rt: &R, now: u64) -> bool
        ensures number { self.new.number ≡ self.old.number }
        ensures passed { self.new.passed ≡ self.old.passed }
        ensures same { SendsNothing self.old.ports.items self.new.ports.items }
        ensures short { self.new.short_of_memory ≡ self.old.short_of_memory }
        ensures emptied { result ≡ false → (self.new.ports.items ≡ self.old.ports.items) × Each IsEmptied self.new.ports.items }
        ensures moments { AtMoment now self.old.ports.items self.new.ports.items }
    {
        let mut any = false;
        for channel in 0..self.ports.len() {
            let collected = self.collect(rt, now, channel);
            any = either(any, collected);
        }
        any
    }

    /// Leaves an operation on a channel out where memory was refused.
    fn leave_out(&mut self, channel: usize)
        ensures number { self.new.number ≡ self.old.number }
        ensures passed { self.new.passed ≡ self.old.passed }
        ensures same { HasSamePorts self.old.ports.items self.new.ports.items }
        ensures left { (requests : ℕ → List ARequest) (request : ARequest) → AreSending requests self.old.ports.items → AreSending (with_request requests channel request) self.new.ports.items }
        ensures short { self.new.short_of_memory ≡ true }
        ensures leaves { OnPort LeavesOut channel self.old.ports.items self.new.ports.items }
    {
        self.short_of_memory = true;
        if channel < self.ports.len() {
            self.ports[channel].leave_out();
        }
    }

    /// Submits a request to a channel at that moment, or leaves it out where the queue never takes it, or is full and the
    /// channel has ended. Whether either was done; else the queue is full.
    fn submit<R: Wait>(
        &mut self,
        rt: &R,
        now: u64,
        channel: usize,
        has_ended: bool,
        request: Request,
    ) -> bool
        ensures number { self.new.number ≡ self.old.number }
        ensures passed { self.new.passed ≡ self.old.passed }
        ensures same { HasSamePorts self.old.ports.items self.new.ports.items }
        ensures short { self.new.short_of_memory ≡ self.old.short_of_memory }
        ensures sent { IsTrue result → (requests : ℕ → List ARequest) → AreSending requests self.old.ports.items → AreSending (with_request requests channel request) self.new.ports.items }
        ensures submits { IsTrue result → OnPort (Submits now request has_ended) channel self.old.ports.items self.new.ports.items }
        ensures waits { result ≡ false → (self.new.ports.items ≡ self.old.ports.items) × IsFullAt self.old.ports.items channel × (has_ended ≡ false) }
    {
        if channel < self.ports.len() {
            self.ports[channel].submit(rt, now, has_ended, request)
        } else {
            true
        }
    }

    /// Makes an operation at that moment, or leaves it out where memory is refused or its channel has ended and its queue is
    /// full; whether it is past it then: else the queue is full.
    pub(crate) fn operate_at<R: Wait>(
        &mut self,
        rt: &R,
        alloc: Global,
        geometry: &Geometry,
        now: u64,
        has_ended: bool,
        operation: &Operation,
    ) -> bool
        ensures number { self.new.number ≡ self.old.number }
        ensures passed { self.new.passed ≡ self.old.passed }
        ensures same { HasSamePorts self.old.ports.items self.new.ports.items }
        ensures sent { IsTrue result → (requests : ℕ → List ARequest) → AreSending requests self.old.ports.items
            → AreSending (with_request requests operation.now.aim.channel (spec_request_of geometry.now operation.now)) self.new.ports.items }
        ensures made { IsTrue result → Makes now operation.now.aim.channel (spec_request_of geometry.now operation.now) has_ended self.old self.new }
        ensures waits { result ≡ false → (self.new.ports.items ≡ self.old.ports.items) × IsFullAt self.old.ports.items operation.now.aim.channel × (has_ended ≡ false) }
    {
        let channel = usize::from(operation.aim.channel);
        match request_of(alloc, geometry, operation) {
            Ok(request) => self.submit(rt, now, channel, has_ended, request),
            Err(_) => {
                self.leave_out(channel);
                true
            }
        }
    }

    /// What the host's thread does: it acts until it is past all rows, and then goes on to collect until all hosts have
    /// ended, so that no channel waits for room in a completion queue.
    pub(crate) fn work<R: Wait>(
        mut self,
        rt: &R,
        alloc: Global,
        geometry: &Geometry,
        board: &Board,
        rows: &[Row],
    ) -> Station
        ensures same { HasSamePorts self.ports.items result.ports.items }
        ensures sent { HasSent geometry.now [] self.number self.ports.items → HasSent geometry.now rows.now self.number result.ports.items }
    {
        let course = Course {
            alloc,
            geometry,
            rows,
        };
        let mut channels = board;
        self.passed = 0;
        for _ in rt.forever() {
            let acted = act(rt, &course, NO_MOMENT, &mut channels, &mut self);
            if self.passed >= rows.len() {
                board.end_host(self.number);
                if board.have_hosts_ended() {
                    return self;
                }
            }
            yield_unless(acted);
        }
        unreachable!()
    }
}
