//! The window bound: phases that start at a time or later and leave some time after them stand in between.

ghost use Rattle.std.specs.Prelude.{◌≡◌, ℕ, ◌+◌, ◌-◌, ◌*◌, ◌^◌, ◌≤◌, ◌<◌, ◌∷◌, [], IfSome, IfNone, length, slice_index};
ghost use Rattle.onfi_bound.specs.Bounds.{on_lun, wants_work};
ghost use Rattle.onfi_bound.specs.Loads.{IsLoad};
ghost use Rattle.onfi_demand.specs.Kept.{IsKept};
ghost use Rattle.onfi_demand.specs.Look.{look_of, phase_at, nothing_seen, Sees, IsSight};
ghost use Rattle.onfi_demand.specs.Window.{chain_from, group_left, wants_left, phases_left_on, window_demand, IsWindow};
ghost use Rattle.onfi_demand.specs.Remaining.{lengths_of};
ghost use Rattle.onfi_demand.specs.Work.{IsWork};

use crate::demand::Demand;
use crate::group_lengths::GroupLengths;
use crate::left::{LunLeft, LunWork};
use onfi_bound::Load;
use onfi_problem::Problem;
use onfi_request::Want;
use onfi_timing::Timing;

/// A window, in ns: phases that start at `start` or later, and end at least `tail` before the finish.
#[derive(Clone, Copy, Debug, PartialEq, Eq)]
pub struct Window {
    pub start: u64,
    pub tail: u64,
}

/// What is looked for on a LUN that may go on from `go`: the phases within.
#[derive(Clone, Copy)]
pub(crate) struct Look {
    pub go: u64,
    pub window: Window,
}

/// The phases within that were seen: their lengths, and how long after the time from which its LUN may go on the first
/// of them may start; the greatest number where none was seen.
#[derive(Clone, Copy)]
pub(crate) struct Seen {
    pub length: u64,
    pub first: u64,
}

impl Seen {
    // Before the first phase.
    fn none() -> Seen
        ensures { result ≡ nothing_seen }
    {
        Seen {
            length: 0,
            first: u64::MAX,
        }
    }
}

impl Look {
    // One phase more, so long after the time from which the LUN may go on.
    fn see(&self, seen: Seen, from: u64, length: u64, tail: u64) -> Seen
        requires from { self.now.go + from < 2 ^ 64 }
        requires length { seen.length + length < 2 ^ 64 }
        ensures sees { Sees self.now seen (phase_at from length tail ∷ []) result }
        ensures small { result.length ≤ seen.length + length }
    {
        if self.go + from >= self.window.start && tail >= self.window.tail {
            Seen {
                length: seen.length + length,
                first: seen.first.min(from),
            }
        } else {
            seen
        }
    }

    // The phases of a running group that are left, `chain` in all with their waits, and `rest` after the group.
    fn see_group(&self, lengths: &GroupLengths, next: u8, chain: u64, rest: u64) -> Seen
        requires go { self.now.go < 2 ^ 62 }
        requires next { next ≤ 2 * lengths.now.members }
        requires chain { chain ≡ chain_from (lengths_of lengths.now) lengths.now.members next }
        requires small { chain < 2 ^ 60 }
        requires rest { rest < 2 ^ 62 }
        ensures sees { Sees self.now nothing_seen (group_left (lengths_of lengths.now) lengths.now.members rest (2 * lengths.now.members - next) next 0) result }
        ensures small { result.length ≤ 2 ^ 54 }
    {
        let mut seen = Seen::none();
        let mut from = 0;
        let mut left = chain;
        for phase in next..2 * lengths.members {
            let length = lengths.phase_length(phase as usize);
            seen = self.see(seen, from, length, left - length + rest);
            let lasts = length + lengths.wait_before(phase as usize + 1);
            from += lasts;
            left -= lasts;
        }
        seen
    }

    // A command and a post of each want, where their LUN is done with its group then.
    fn see_wants(&self, seen: Seen, timing: &Timing, from: u64, wants: &[Want]) -> Seen
        requires go { self.now.go < 2 ^ 62 }
        requires from { from < 2 ^ 60 }
        requires few { length wants.now ≤ 8 }
        requires small { seen.length ≤ 2 ^ 54 }
        ensures sees { Sees self.now seen (wants_left timing.now from wants.now) result }
        ensures small { result.length ≤ 2 ^ 56 }
    {
        let mut seen = seen;
        for want in wants {
            let spans = timing.spans(want.kind);
            seen = self.see(seen, from, spans.cmd, spans.array + spans.post);
            seen = self.see(seen, from + spans.cmd + spans.array, spans.post, 0);
        }
        seen
    }
}

impl LunWork {
    // What of all that is left to the LUN is within a window, where its wants take so long.
    fn see(&self, problem: &Problem, lun: u8, rest: u64, window: Window) -> Seen
        requires lun { lun < length problem.now.problem.luns }
        requires work { IsWork problem.now.problem lun self.now }
        requires rest { rest ≡ wants_work problem.now.problem.timing problem.now.problem.rules (on_lun lun problem.now.problem.wants) }
        requires short { rest < 2 ^ 62 }
        ensures sees { Sees (look_of problem.now.problem lun window) nothing_seen (phases_left_on problem.now.problem lun) result }
        ensures small { result.length ≤ 2 ^ 56 }
    {
        problem.in_limits();
        let timing = problem.timing();
        let look = Look {
            go: self.go,
            window,
        };
        match self.left {
            LunLeft::Idle => look.see_wants(Seen::none(), timing, 0, &self.wants),
            LunLeft::Rest {
                operation,
                members,
                next,
                sectors,
            } => {
                let lengths = GroupLengths::of(timing, operation, members, next, &sectors);
                let chain = lengths.chain_from(next);
                let seen = look.see_group(&lengths, next, chain, rest);
                look.see_wants(seen, timing, chain, &self.wants)
            }
        }
    }
}

/// What of all that is left is within a window, in ns: the lengths of the phases, and for each LUN how long after the time
/// from which it may go on its first phase within may start.
#[derive(Clone, Copy)]
pub(crate) struct Sight {
    pub length: u64,
    pub firsts: [u64; 8],
}

impl Sight {
    // What is within a window of a problem whose waiting wants take that load.
    fn of(problem: &Problem, load: &Load, window: Window) -> Sight
        requires { IsLoad problem.now.problem.timing problem.now.problem.rules problem.now.problem.wants load.now }
        ensures sight { IsSight problem.now.problem window result }
        ensures small { result.length ≤ 2 ^ 59 }
    {
        problem.in_limits();
        let count = problem.lun_count();
        let mut length = 0;
        let mut firsts = [u64::MAX; 8];
        for lun in 0..count {
            let work = LunWork::of(problem, lun as u8);
            let seen = work.see(problem, lun as u8, load.work[lun], window);
            length += seen.length;
            firsts[lun] = seen.first;
        }
        Sight { length, firsts }
    }

    // From when on each LUN must go on, where its phases within start at `time` or later.
    fn times(&self, time: u64) -> [u64; 8]
        ensures { (lun : ℕ) → lun < 8 → slice_index result lun ≡ time - slice_index self.now.firsts lun }
    {
        let mut times = [0; 8];
        for lun in 0..8usize {
            times[lun] = time.saturating_sub(self.firsts[lun]);
        }
        times
    }
}

impl Window {
    /// What the window bound asks for, where some phase is within and what is within reaches `e` ns; `load` is what the
    /// problem's waiting wants take.
    pub fn asks(self, problem: &Problem, load: &Load, e: u64) -> Option<Demand>
        requires { IsLoad problem.now.problem.timing problem.now.problem.rules problem.now.problem.wants load.now }
        ensures some { IfSome result (λ d. IsWindow problem.now.problem e self.start self.tail × IsKept d (window_demand problem.now.problem self.start self.tail e)) }
        ensures none { IfNone result (IsWindow problem.now.problem e self.start self.tail → ⊥) }
    {
        problem.in_limits();
        let sight = Sight::of(problem, load, self);
        let needed = e.saturating_sub(self.start).saturating_sub(self.tail);
        if sight.length == 0 || sight.length < needed {
            return None;
        }
        let time = e.saturating_sub(sight.length).saturating_sub(self.tail);
        let luns = sight.times(time);
        Some(Demand { bus: 0, luns })
    }
}
