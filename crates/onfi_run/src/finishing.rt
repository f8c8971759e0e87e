//! The end of a run: channels are drained, inboxes emptied, and all ends closed.
ghost use Rattle.std.specs.Prelude.{◌≡◌, ◌≤◌, ◌++◌, ◌||◌, ℕ, IfSome, Option, [], ◌∷◌, length, IfOk, IsTrue, map};
ghost use Rattle.std.specs.List.{list_any, zip, AllZip, AllByRecursion as Each};
ghost use Rattle.onfi_run.specs.Answers.{AddsReplies, IsSuited};
ghost use Rattle.onfi_run.specs.ByHost.{with_each};
ghost use Rattle.onfi_run.specs.Ending as spec;
ghost use Rattle.onfi_run.specs.Ending.{IsOverAt};
ghost use Rattle.onfi_run.specs.Finishing.{Concludes, Empties, IsFinished, IsGathered, are_complete as spec_are_complete, report_of_none, report_with};
ghost use Rattle.onfi_run.specs.Keys.{AreEndsOf, AreLinked, ports_of, queues_of};
ghost use Rattle.onfi_run.specs.Pace.{EndsWithin, IsLaneWithin};
ghost use Rattle.onfi_record.specs.Recording.{IsTraceText};

use crate::answers::{Answers, Got};
use crate::channel::{Channel, Drained};
use crate::channel_end::ChannelEnd;
use crate::lane::Lane;
use crate::port::Port;
use crate::report::Report;
use crate::station::{Station, split_hosts};
use onfi_queue::Host;
use onfi_reply::Inbox;
use std::alloc::{AllocError, Global};
use std::array;
use std::sync::Wait;

/// What came of a channel: what each host got, how it ended, and whether memory was refused.
#[derive(Drop)]
struct Finished {
    got: [Answers; 4],
    end: ChannelEnd,
    short_of_memory: bool,
    trace: Option<Vec<u8>>,
}

/// Collects all that waits for a host in its inbox at that moment, and keeps the answers.
fn empty<R: Wait>(rt: &R, now: u64, inbox: &mut Inbox, answers: &mut Answers)
    ensures same { inbox.new.queue ≡ inbox.old.queue }
    ensures got { Empties now (inbox.old, answers.old) (inbox.new, answers.new) }
    ensures adds { AddsReplies now answers.old answers.new }
{
    for _ in rt.forever() {
        let Some(reply) = inbox.collect(rt) else {
            break;
        };
        answers.keep(reply, now);
    }
}

/// Collects all that waits in the inboxes of a channel at that moment, each host's with its own answers.
fn empty_all<R: Wait>(rt: &R, now: u64, inboxes: &mut [Inbox; 4], got: &mut [Answers; 4])
    ensures same { queues_of inboxes.new ≡ queues_of inboxes.old }
    ensures got { AllZip (Empties now) (zip inboxes.old got.old) (zip inboxes.new got.new) }
    ensures adds { AllZip (AddsReplies now) got.old got.new }
{
    empty(rt, now, &mut inboxes[0], &mut got[0]);
    empty(rt, now, &mut inboxes[1], &mut got[1]);
    empty(rt, now, &mut inboxes[2], &mut got[2]);
    empty(rt, now, &mut inboxes[3], &mut got[3]);
}

/// Whether each operation of each host has its answer.
fn are_complete(got: &[Answers; 4]) -> bool
    ensures complete { result ≡ spec_are_complete got.now }
    ensures suited { Each (Each IsSuited) got.now }
{
    let first = got[0].is_complete();
    let second = got[1].is_complete();
    let third = got[2].is_complete();
    let fourth = got[3].is_complete();
    first && second && third && fourth
}

/// How the thread ended where it stopped or was over, else that.
fn thread_or(thread: ChannelEnd, other: ChannelEnd) -> ChannelEnd
    ensures { result ≡ spec.thread_or thread other }
{
    match thread {
        ChannelEnd::Stopped(_) | ChannelEnd::Over { .. } => thread,
        ChannelEnd::Done | ChannelEnd::Unfinished => other,
    }
}

/// What is reported of a channel whose draining and whose thread ended so; where an operation has no answer, never that it is
/// done, unless memory was refused, which the last line of a report says.
fn channel_end(
    drained: ChannelEnd,
    thread: ChannelEnd,
    is_complete: bool,
    short_of_memory: bool,
) -> ChannelEnd
    ensures { result ≡ spec.channel_end drained thread is_complete short_of_memory }
{
    match drained {
        ChannelEnd::Done if is_complete => ChannelEnd::Done,
        ChannelEnd::Done if short_of_memory => thread_or(thread, ChannelEnd::Done),
        ChannelEnd::Done => thread_or(thread, ChannelEnd::Unfinished),
        _ => drained,
    }
}

/// Whether one of the two holds.
pub(crate) fn either(first: bool, second: bool) -> bool
    ensures { result ≡ (first || second) }
{
    first || second
}

/// What came of a channel, whose hosts got this.
fn conclude(
    drained: Drained,
    thread: ChannelEnd,
    short_of_memory: bool,
    got: [Answers; 4],
    trace: Option<Vec<u8>>,
) -> Finished
    ensures got { result.got ≡ got }
    ensures trace { result.trace ≡ trace }
    ensures finished { IsFinished result }
    ensures end { result.end ≡ spec.channel_end drained.end thread (spec_are_complete got) result.short_of_memory }
    ensures over { (nodes : Option ℕ) → IsOverAt nodes drained.end → IsOverAt nodes thread → IsOverAt nodes result.end }
    ensures short { result.short_of_memory ≡ (short_of_memory || drained.short_of_memory) }
{
    let short_of_memory = either(short_of_memory, drained.short_of_memory);
    let is_complete = are_complete(&got);
    Finished {
        got,
        end: channel_end(drained.end, thread, is_complete, short_of_memory),
        short_of_memory,
        trace,
    }
}

/// The ends of the four hosts on a channel, and what they got there.
fn ends_of(ports: [Port; 4]) -> ([Host; 4], [Inbox; 4], [Answers; 4])
    ensures hosts { result.0 ≡ map (λ p. p.host) ports }
    ensures inboxes { result.1 ≡ map (λ p. p.inbox) ports }
    ensures answers { result.2 ≡ map (λ p. p.answers) ports }
{
    let [p0, p1, p2, p3] = ports;
    (
        [p0.host, p1.host, p2.host, p3.host],
        [p0.inbox, p1.inbox, p2.inbox, p3.inbox],
        [p0.answers, p1.answers, p2.answers, p3.answers],
    )
}

/// Drains a channel whose hosts have these ports, empties its inboxes at that moment and closes it.
fn close_channel<R: Wait, C: Channel + Drop>(
    rt: &R,
    alloc: Global,
    now: u64,
    lane: Lane<C>,
    short_of_memory: bool,
    ports: [Port; 4],
) -> Finished
    requires { AreEndsOf (C.queues lane.channel) ports }
    ensures got { AllZip (AddsReplies now) (map (λ p. p.answers) ports) result.got }
    ensures finished { IsFinished result }
    ensures concludes { Concludes (λ d inboxes. (after : C) × C.drains lane.channel (map (λ p. p.host) ports) (map (λ p. p.inbox) ports) d after inboxes) now lane.ended short_of_memory (map (λ p. p.answers) ports) result }
    ensures over { EndsWithin C.queues lane → IsOverAt (C.queues lane.channel).nodes result.end }
    ensures trace { IfSome result.trace (λ text. IsTraceText text.items) }
    ensures short { IsTrue (short_of_memory || C.short lane.channel) → IsTrue result.short_of_memory }
{
    let Lane {
        mut channel,
        ended,
        refusals: _,
        pace: _,
    } = lane;
    let (hosts, mut inboxes, mut got) = ends_of(ports);
    let drained = channel.drain(rt, alloc, &hosts, &mut inboxes);
    empty_all(rt, now, &mut inboxes, &mut got);
    let trace = channel.trace(alloc);
    channel.close(rt, hosts, inboxes);
    conclude(drained, ended, short_of_memory, got, trace)
}

/// The host without its ends on the last channel, and these.
fn take_port(station: Station) -> (Station, Port)
    requires { 1 ≤ length station.ports.items }
    ensures { station.ports.items ≡ result.0.ports.items ++ result.1 ∷ [] }
{
    let mut station = station;
    let port = station.ports.pop().unwrap();
    (station, port)
}

/// The hosts without their ends on the last channel, and these.
fn take_ports(stations: [Station; 4]) -> ([Station; 4], [Port; 4])
    requires { Each (λ s. 1 ≤ length s.ports.items) stations }
    ensures { ports_of stations ≡ with_each (ports_of result.0) result.1 }
{
    let (s0, s1, s2, s3) = split_hosts(stations);
    let (s0, p0) = take_port(s0);
    let (s1, p1) = take_port(s1);
    let (s2, p2) = take_port(s2);
    let (s3, p3) = take_port(s3);
    ([s0, s1, s2, s3], [p0, p1, p2, p3])
}

/// Whether memory was refused to one of the hosts.
fn is_any_short(stations: &[Station; 4]) -> bool
    ensures { result ≡ list_any (λ s. s.short_of_memory) stations.now }
{
    stations.iter().any(|station| station.short_of_memory)
}

impl Report {
    /// Of no channel.
    fn new(alloc: Global, short_of_memory: bool) -> Report
        ensures { result ≡ report_of_none short_of_memory }
    {
        Report {
            got: array::from_fn(|_| Got::new(alloc)),
            ends: Vec::new(alloc),
            short_of_memory,
            clock: None,
            traces: Vec::new(alloc),
        }
    }

    /// With one channel more.
    fn with_channel(self, finished: Finished) -> Result<Report, AllocError>
        requires { IfSome finished.trace (λ text. IsTraceText text.items) }
        ensures { IfOk result (λ more. more ≡ report_with self finished) }
    {
        let Report {
            got,
            mut ends,
            short_of_memory,
            clock,
            mut traces,
        } = self;
        let (g0, g1, g2, g3) = split_hosts(got);
        let (a0, a1, a2, a3) = split_hosts(finished.got);
        ends.push(finished.end)?;
        traces.push(finished.trace)?;
        Ok(Report {
            got: [g0.with(a0)?, g1.with(a1)?, g2.with(a2)?, g3.with(a3)?],
            ends,
            short_of_memory: either(short_of_memory, finished.short_of_memory),
            clock,
            traces,
        })
    }
}

/// What came of all channels, in their order; `short_of_memory` says whether memory was refused to a host.
fn gather<R: Wait, C: Channel + Drop>(
    rt: &R,
    alloc: Global,
    now: u64,
    lanes: Vec<Lane<C>>,
    stations: [Station; 4],
    short_of_memory: bool,
) -> Result<Report, AllocError>
    requires { AreLinked (map (λ l. C.queues l.channel) lanes.items) stations }
    ensures gathered { IfOk result (λ report. IsGathered now (ports_of stations) (length lanes.items) report) }
    ensures over { IfOk result (λ report. (nodes : Option ℕ) → Each (IsLaneWithin C.queues nodes) lanes.items → Each (IsOverAt nodes) report.ends) }
    ensures short { IfOk result (λ report. IsTrue short_of_memory → IsTrue report.short_of_memory) }
    ensures refused { IfOk result (λ report. Each (λ l. IsTrue (C.short l.channel) → IsTrue report.short_of_memory) lanes.items) }
{
    let mut left = lanes;
    let Some(lane) = left.pop() else {
        return Ok(Report::new(alloc, short_of_memory));
    };
    let (stations, ports) = take_ports(stations);
    let finished = close_channel(rt, alloc, now, lane, short_of_memory, ports);
    let report = gather(rt, alloc, now, left, stations, short_of_memory)?;
    report.with_channel(finished)
}

/// The report of all channels, in their order; what is left in inboxes is collected at that moment, in ns of the run's clock.
pub(crate) fn finish_all<R: Wait, C: Channel + Drop>(
    rt: &R,
    alloc: Global,
    now: u64,
    lanes: Vec<Lane<C>>,
    stations: [Station; 4],
) -> Result<Report, AllocError>
    requires { AreLinked (map (λ l. C.queues l.channel) lanes.items) stations }
    ensures gathered { IfOk result (λ report. IsGathered now (ports_of stations) (length lanes.items) report) }
    ensures over { IfOk result (λ report. (nodes : Option ℕ) → Each (IsLaneWithin C.queues nodes) lanes.items → Each (IsOverAt nodes) report.ends) }
    ensures short { IfOk result (λ report. IsTrue (list_any (λ s. s.short_of_memory) stations) → IsTrue report.short_of_memory) }
    ensures refused { IfOk result (λ report. Each (λ l. IsTrue (C.short l.channel) → IsTrue report.short_of_memory) lanes.items) }
{
    let short_of_memory = is_any_short(&stations);
    gather(rt, alloc, now, lanes, stations, short_of_memory)
}
