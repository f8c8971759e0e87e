//! A run with a clock: one thread goes from moment to moment.
ghost use Rattle.std.specs.Prelude.{◌≡◌, ◌<◌, ◌≤◌, ◌++◌, [], ◌∷◌, ℕ, List, IfOk, false, map};
ghost use Rattle.std.specs.List.{AllByRecursion as Each};
ghost use Rattle.onfi_run.specs.Arriving.{comes_at as spec_comes_at};
ghost use Rattle.onfi_run.specs.Ending.{no_clock};
ghost use Rattle.onfi_run.specs.Keys.{HaveSamePorts};
ghost use Rattle.onfi_run.specs.Moments.{AllAtMoment};
ghost use Rattle.onfi_run.specs.Pace.{EndsWithin, IsNext, Waits, due_of, lane_key};
ghost use Rattle.onfi_run.specs.Resting.{Rests, ends_by};

use crate::acts::{Course, act};
use crate::arriving::comes_at;
use crate::bus_use::BusUse;
use crate::channel::{Channel, NO_CLOCK};
use crate::channels::Channels;
use crate::finishing::either;
use crate::lane::Lane;
use crate::pace::least;
use crate::station::Station;
use onfi_script::Row;
use std::alloc::{AllocError, Global};
use std::sync::Wait;

/// The channels and hosts after a run, and its last moment, in ns of its clock.
#[derive(Drop)]
pub(crate) struct Settled<C: Channel> {
    pub(crate) lanes: Vec<Lane<C>>,
    pub(crate) stations: [Station; 4],
    pub(crate) now: u64,
}

impl<C: Channel> Channels for Vec<Lane<C>> {
    ghost use Rattle.std.specs.Prelude.{◌≡◌, map};
    ghost use Rattle.onfi_run.specs.Answers.{changed};
    ghost use Rattle.onfi_run.specs.Pace.{lane_key, woken as spec_woken};
    ghost use Rattle.onfi_run.specs.Resting.{ends_by};

    ghost queues = { λ lanes. map (lane_key C.queues) lanes.items };

    ghost ended = { λ lanes. ends_by (map (λ l. l.pace) lanes.items) };

    ghost woken = { λ lanes channel lanes'. lanes'.items ≡ changed spec_woken lanes.items channel };

    fn has_ended(&self, channel: usize) -> bool {
        channel >= self.len() || self[channel].pace.has_ended
    }

    /// It may make a turn as soon as its bus is free.
    fn wake(&mut self, channel: usize) {
        if channel < self.len() {
            self[channel].pace.wake();
        }
    }
}

/// Each host in the order of its number acts at that moment; whether one did anything.
fn act_all<R: Wait, C: Channel>(
    rt: &R,
    course: &Course<'_>,
    now: u64,
    lanes: &mut Vec<Lane<C>>,
    stations: &mut [Station; 4],
) -> bool
    ensures lanes { map (lane_key C.queues) lanes.new.items ≡ map (lane_key C.queues) lanes.old.items }
    ensures stations { HaveSamePorts stations.old stations.new }
    ensures rest { result ≡ false → (lanes.new ≡ lanes.old) × Each (Rests now course.now.rows.now (ends_by (map (λ l. l.pace) lanes.new.items))) stations.new }
    ensures moments { AllAtMoment now stations.old stations.new }
{
    let mut any = false;
    for host in 0..4usize {
        let acted = act(rt, course, now, lanes, &mut stations[host]);
        any = either(any, acted);
    }
    any
}

/// Each channel in the order of its number makes a turn at that moment, if it may make one; whether one did.
fn turn_all<R: Wait, C: Channel>(rt: &R, alloc: Global, now: u64, lanes: &mut Vec<Lane<C>>) -> bool
    ensures same { map (λ l. C.queues l.channel) lanes.new.items ≡ map (λ l. C.queues l.channel) lanes.old.items }
    ensures over { Each (EndsWithin C.queues) lanes.old.items → Each (EndsWithin C.queues) lanes.new.items }
    ensures wait { result ≡ false → (lanes.new.items ≡ lanes.old.items) × Each (λ l. Waits now l.pace (C.free l.channel)) lanes.new.items }
{
    let mut any = false;
    for channel in 0..lanes.len() {
        let turned = lanes[channel].turn_at(rt, alloc, now);
        any = either(any, turned);
    }
    any
}

/// A round at that moment: all hosts act, then all channels make a turn; whether one did anything.
fn round<R: Wait, C: Channel>(
    rt: &R,
    course: &Course<'_>,
    now: u64,
    lanes: &mut Vec<Lane<C>>,
    stations: &mut [Station; 4],
) -> bool
    ensures lanes { map (λ l. C.queues l.channel) lanes.new.items ≡ map (λ l. C.queues l.channel) lanes.old.items }
    ensures over { Each (EndsWithin C.queues) lanes.old.items → Each (EndsWithin C.queues) lanes.new.items }
    ensures stations { HaveSamePorts stations.old stations.new }
    ensures rest { result ≡ false → Each (Rests now course.now.rows.now (ends_by (map (λ l. l.pace) lanes.new.items))) stations.new }
    ensures wait { result ≡ false → Each (λ l. Waits now l.pace (C.free l.channel)) lanes.new.items }
    ensures moments { AllAtMoment now stations.old stations.new }
{
    let acted = act_all(rt, course, now, lanes, stations);
    let turned = turn_all(rt, course.alloc, now, lanes);
    either(acted, turned)
}

/// Rounds at that moment, until one changes nothing.
fn settle<R: Wait, C: Channel>(
    rt: &R,
    course: &Course<'_>,
    now: u64,
    lanes: &mut Vec<Lane<C>>,
    stations: &mut [Station; 4],
)
    ensures lanes { map (λ l. C.queues l.channel) lanes.new.items ≡ map (λ l. C.queues l.channel) lanes.old.items }
    ensures over { Each (EndsWithin C.queues) lanes.old.items → Each (EndsWithin C.queues) lanes.new.items }
    ensures stations { HaveSamePorts stations.old stations.new }
    ensures rest { Each (Rests now course.now.rows.now (ends_by (map (λ l. l.pace) lanes.new.items))) stations.new }
    ensures wait { Each (λ l. Waits now l.pace (C.free l.channel)) lanes.new.items }
    ensures moments { AllAtMoment now stations.old stations.new }
{
    for _ in rt.forever() {
        if !round(rt, course, now, lanes, stations) {
            return;
        }
    }
    unreachable!()
}

/// The least of the moments after `now` so far, and of the one at which a channel is due, if that is after it.
fn choose_sooner(now: u64, other: Option<u64>, due: u64) -> Option<u64>
    ensures { (dues : List ℕ) → IsNext now dues other → IsNext now (dues ++ due ∷ []) result }
{
    if due <= now {
        return other;
    }
    if due >= NO_CLOCK {
        return other;
    }
    Some(least(other, due))
}

/// The least moment after `now` at which a channel may make a turn that may make none by then.
fn next_turn<C: Channel>(lanes: &[Lane<C>], now: u64) -> Option<u64>
    ensures { IsNext now (map (λ l. due_of l.pace (C.free l.channel)) lanes.now) result }
{
    let mut next = None;
    for lane in lanes {
        next = choose_sooner(now, next, lane.due());
    }
    next
}

/// The moment that comes next after `now`: the least at which a channel may make a turn that may make none by then, or at
/// which operations arrive for which a host waits.
fn next_moment<C: Channel>(
    rows: &[Row],
    lanes: &[Lane<C>],
    stations: &[Station],
    now: u64,
) -> Option<u64>
    ensures { IsNext now (map (λ l. due_of l.pace (C.free l.channel)) lanes.now ++ map (λ s. spec_comes_at rows.now s.passed) stations.now) result }
{
    let mut next = next_turn(lanes, now);
    for station in stations {
        next = choose_sooner(now, next, comes_at(rows, station.passed));
    }
    next
}

/// The channels and hosts after a run from moment 0 on, until nothing is left to do at any.
pub(crate) fn simulate<R: Wait, C: Channel + Drop>(
    rt: &R,
    course: &Course<'_>,
    mut lanes: Vec<Lane<C>>,
    mut stations: [Station; 4],
) -> Settled<C>
    ensures lanes { map (λ l. C.queues l.channel) result.lanes.items ≡ map (λ l. C.queues l.channel) lanes.items }
    ensures over { Each (EndsWithin C.queues) lanes.items → Each (EndsWithin C.queues) result.lanes.items }
    ensures stations { HaveSamePorts stations result.stations }
    ensures rest { (now : ℕ) → result.now ≤ now → now < no_clock → Each (Rests now course.now.rows.now (ends_by (map (λ l. l.pace) result.lanes.items))) result.stations }
    ensures wait { (now : ℕ) → result.now ≤ now → now < no_clock → Each (λ l. Waits now l.pace (C.free l.channel)) result.lanes.items }
{
    let mut now = 0u64;
    for _ in rt.forever() {
        settle(rt, course, now, &mut lanes, &mut stations);
        match next_moment(course.rows, lanes.as_slice(), &stations, now) {
            Some(next) => now = next,
            None => {
                return Settled {
                    lanes,
                    stations,
                    now,
                };
            }
        }
    }
    unreachable!()
}

/// How busy the bus of each channel was.
///
/// # Errors
/// Where memory was refused.
pub(crate) fn buses_of<C: Channel>(
    alloc: Global,
    lanes: &[Lane<C>],
) -> Result<Vec<BusUse>, AllocError>
    ensures { IfOk result (λ buses. buses.items ≡ map (λ l. l.pace.bus) lanes.now) }
{
    lanes.iter().map(|lane| lane.pace.bus).collect(alloc)
}
