//! One walk over the LUNs, from which all bounds are read.

ghost use Rattle.std.specs.Prelude.{◌≡◌, ℕ, ◌+◌, ◌<◌, ◌≤◌, Some, MatchOption, length, slice_get};
ghost use Rattle.onfi_problem.specs.Position.{state_of};
ghost use Rattle.onfi_bound.specs.Bounds.{die};
ghost use Rattle.onfi_bound.specs.Loads.{IsLoad, IsTally, IsChainAt};
ghost use Rattle.onfi_bound.specs.Reaching.{NoneReaches, IsFirstAt, IsFirstDieAt};

use crate::bound::{Bound, BoundAt};
use crate::chain::Chain;
use crate::left::Sums;
use crate::load::Load;
use crate::posts::least_of;
use crate::reaching::at_least;
use onfi_problem::{Lun, Problem};

/// What is left, as far as a walk over the LUNs has come.
#[derive(Clone, Copy)]
pub struct Tally {
    /// What is left of all wants, and of the running groups that the walk has met.
    pub sums: Sums,
    /// The least first post start that the walk has met, in ns.
    pub first: Option<u64>,
    /// The greatest die bound of the LUNs that the walk has met and that have something left, in ns; 0 where there is
    /// none.
    pub done: u64,
}

impl Load {
    /// What [`crate::closing`] answers of a problem whose waiting wants these are.
    #[inline(always)]
    pub fn closing(&self, problem: &Problem, e: u64) -> Option<BoundAt>
        requires { IsLoad problem.now.problem.timing problem.now.problem.rules problem.now.problem.wants self.now }
        ensures { MatchOption result (NoneReaches problem.now.problem e) (λ first. IsFirstAt problem.now.problem e first) }
    {
        let tally = Tally::of(problem, self);
        let bus = tally.sums.bus(problem);
        if bus >= e {
            return Some(BoundAt {
                bound: Bound::Bus,
                at: bus,
            });
        }
        let lead = tally.sums.lead(problem, tally.first);
        if lead >= e {
            return Some(BoundAt {
                bound: Bound::Lead,
                at: lead,
            });
        }
        if let Some(at) = at_least(tally.sums.trail(problem), e) {
            return Some(BoundAt {
                bound: Bound::Trail,
                at,
            });
        }
        if tally.done < e {
            return None;
        }
        match self.first_die(problem, e) {
            Some(first) => Some(first),
            None => None,
        }
    }

    // The first LUN whose die bound is at least `e` ns.
    fn first_die(&self, problem: &Problem, e: u64) -> Option<BoundAt>
        requires { IsLoad problem.now.problem.timing problem.now.problem.rules problem.now.problem.wants self.now }
        ensures { MatchOption result ((l : ℕ) → l < length problem.now.problem.luns → die problem.now.problem l < e)
            (λ first. IsFirstDieAt problem.now.problem e first) }
    {
        problem.in_limits();
        for (lun, state) in problem.luns().iter().enumerate() {
            let at = self.die(problem, lun as u8, *state);
            if at >= e {
                return Some(BoundAt {
                    bound: Bound::Die(lun as u8),
                    at,
                });
            }
        }
        None
    }

    // The die bound of a LUN, in ns.
    fn die(&self, problem: &Problem, lun: u8, state: Lun) -> u64
        requires load { IsLoad problem.now.problem.timing problem.now.problem.rules problem.now.problem.wants self.now }
        requires state { slice_get problem.now.problem.luns lun ≡ Some (state_of problem.now.groups state) }
        requires small { lun < 8 }
        requires place { 1 ≤ state.next → state.place < length problem.now.groups }
        ensures { result ≡ die problem.now.problem lun }
    {
        let (timing, bus_free) = (problem.timing(), problem.bus_free());
        let chain = Chain::of(timing, problem.groups(), state);
        let work = self.work[lun as usize];
        if !chain.running && work == 0 {
            return bus_free;
        }
        chain.done_by(bus_free, work)
    }
}

impl Tally {
    // What is left to a problem whose waiting wants take that load.
    fn of(problem: &Problem, load: &Load) -> Tally
        requires { IsLoad problem.now.problem.timing problem.now.problem.rules problem.now.problem.wants load.now }
        ensures { IsTally problem.now.problem (length problem.now.problem.luns) result }
    {
        problem.in_limits();
        let mut tally = Tally {
            sums: load.sums,
            first: None,
            done: 0,
        };
        for (lun, state) in problem.luns().iter().enumerate() {
            tally.add_lun(problem, load, lun as u8, *state);
        }
        tally
    }

    // One LUN more. The three cases are separated before the sums, so that each is a few additions.
    #[inline(always)]
    fn add_lun(&mut self, problem: &Problem, load: &Load, lun: u8, state: Lun)
        requires load { IsLoad problem.now.problem.timing problem.now.problem.rules problem.now.problem.wants load.now }
        requires state { slice_get problem.now.problem.luns lun ≡ Some (state_of problem.now.groups state) }
        requires small { lun < 8 }
        requires place { 1 ≤ state.next → state.place < length problem.now.groups }
        requires so_far { IsTally problem.now.problem lun self.old }
        ensures { IsTally problem.now.problem (lun + 1) self.new }
    {
        if state.next == 0 {
            self.add(problem, load, lun, Chain::free(state.time));
            return;
        }
        let (timing, group) = (problem.timing(), &problem.groups()[state.place as usize]);
        if (state.next as usize) < group.len() {
            let chain = Chain::of_commands(timing, group, state.next, state.time);
            self.add(problem, load, lun, chain);
        } else {
            let chain = Chain::of_posts(timing, group, state.next, state.time);
            self.add(problem, load, lun, chain);
        }
    }

    // One LUN more, of whose running group that chain is left.
    #[inline(always)]
    fn add(&mut self, problem: &Problem, load: &Load, lun: u8, chain: Chain)
        requires load { IsLoad problem.now.problem.timing problem.now.problem.rules problem.now.problem.wants load.now }
        requires chain { IsChainAt problem.now.problem lun chain }
        requires small { lun < 8 }
        requires so_far { IsTally problem.now.problem lun self.old }
        ensures { IsTally problem.now.problem (lun + 1) self.new }
    {
        let bus_free = problem.bus_free();
        let work = load.work[lun as usize];
        if !chain.running && work == 0 {
            return;
        }
        let to_post = if chain.running {
            chain.commands + chain.waits
        } else {
            load.firsts[lun as usize]
        };
        let done = chain.done_by(bus_free, work);
        self.sums = self.sums.with_chain(chain);
        self.first = Some(least_of(bus_free.max(chain.from) + to_post, self.first));
        self.done = self.done.max(done);
    }
}
