//! A window whose phases reach a finish.

ghost use Rattle.std.specs.Prelude.{◌≡◌, ◌≤◌, ◌<◌, ◌^◌, IfOk, IfSome, [], length};

use crate::guessed::{Waiting, WaitingOnLun, list_waiting, rest_of, waiting_work};
use onfi_bound::Loads;
use onfi_demand::{GroupLengths, LunLeft, Window, left_on};
use onfi_problem::Problem;
use onfi_timing::{Spans, Timing};
use std::alloc::{AllocError, Global};

/// Phases of a LUN that may start from the same time on and have the same after them: that time, how long they are
/// together, and what is at least between the end of each and the finish, in ns.
#[derive(Clone, Copy)]
struct PhasesAlike {
    start: u64,
    length: u64,
    tail: u64,
}

/// The phases that are left to a node, the latest start first, and what they have after them, each time once. A walk uses
/// one for all its nodes.
#[derive(Drop)]
pub struct Phases {
    of: Vec<PhasesAlike>,
    tails: Vec<u64>,
}

impl Phases {
    /// A list for a walk.
    pub fn new(alloc: Global) -> Phases
        ensures phases { result.of.items ≡ [] }
        ensures tails { result.tails.items ≡ [] }
    {
        Phases {
            of: Vec::new(alloc),
            tails: Vec::new(alloc),
        }
    }

    /// A window that seems to reach `e` ns. Where it finds none there may be one: a walk opens a node more then.
    ///
    /// # Errors
    /// Only where memory was refused.
    pub fn window(
        &mut self,
        problem: &Problem,
        loads: &Loads,
        e: u64,
    ) -> Result<Option<Window>, AllocError>
        ensures { IfOk result (λ found. IfSome found (λ w. w.start < 2 ^ 63 × w.tail < 2 ^ 63)) }
    {
        self.of.clear();
        self.tails.clear();
        self.list(problem, loads)?;
        Ok(self.spellable(e))
    }

    // Lists what is left to all LUNs.
    fn list(&mut self, problem: &Problem, loads: &Loads) -> Result<(), AllocError> {
        let timing = problem.timing();
        let waiting = list_waiting(problem);
        let work = waiting_work(problem, loads);
        for lun in 0..problem.lun_count() {
            let free = self.list_group(problem, timing, lun as u8, work[lun])?;
            self.list_wants(timing, &waiting[lun], free)?;
        }
        Ok(())
    }

    // Lists what is left of a LUN's group, where its wants take so long; answers when it is free.
    fn list_group(
        &mut self,
        problem: &Problem,
        timing: &Timing,
        lun: u8,
        work: u64,
    ) -> Result<u64, AllocError>
        requires { lun < length problem.now.problem.luns }
    {
        let go = problem.may_go(lun);
        match left_on(problem, lun) {
            LunLeft::Idle => Ok(go),
            LunLeft::Rest {
                operation,
                members,
                next,
                sectors,
            } => {
                let lengths = GroupLengths::of(timing, operation, members, next, &sectors);
                self.list_phases(&lengths, next, go, work)
            }
        }
    }

    // Lists the phases of a group from `next` on, the first of which may start at `go`, where so much is after the last
    // one; answers when that one ends.
    fn list_phases(
        &mut self,
        lengths: &GroupLengths,
        next: u8,
        go: u64,
        work: u64,
    ) -> Result<u64, AllocError> {
        let end = go.saturating_add(rest_of(lengths, next));
        let mut start = go;
        for phase in next as usize..2 * lengths.members as usize {
            let length = lengths.phase_length(phase);
            let ended = start.saturating_add(length);
            let tail = end.saturating_sub(ended).saturating_add(work);
            self.insert(start, length, tail)?;
            start = ended.saturating_add(lengths.wait_before(phase + 1));
        }
        Ok(end)
    }

    // Lists the commands and the posts of the wants of a LUN that is free from then on.
    fn list_wants(
        &mut self,
        timing: &Timing,
        waiting: &WaitingOnLun,
        free: u64,
    ) -> Result<(), AllocError> {
        self.list_operation(&timing.read, &waiting.reads, free)?;
        self.list_operation(&timing.program, &waiting.programs, free)?;
        self.list_operation(&timing.erase, &waiting.erases, free)
    }

    // .. of the wants of an operation.
    fn list_operation(
        &mut self,
        spans: &Spans,
        waiting: &Waiting,
        free: u64,
    ) -> Result<(), AllocError> {
        if waiting.count == 0 {
            return Ok(());
        }
        let commands = spans.cmd.saturating_mul(waiting.count);
        let posts = waiting.posts;
        let behind = spans.array.saturating_add(waiting.shortest);
        let ready = free.saturating_add(spans.cmd).saturating_add(spans.array);
        self.insert(free, commands, behind)?;
        self.insert(ready, posts, 0)
    }

    // Puts phases after those that start no sooner, and what is after them beside the others.
    fn insert(&mut self, start: u64, length: u64, tail: u64) -> Result<(), AllocError> {
        let phases = PhasesAlike {
            start,
            length,
            tail,
        };
        let place = self.place_of(start);
        if self.of.insert(place, phases).is_err() {
            return Err(AllocError);
        }
        if !self.tails.iter().any(|other| *other == tail) {
            self.tails.push(tail)?;
        }
        Ok(())
    }

    // How many of the first phases start then or later.
    fn place_of(&self, start: u64) -> usize
        ensures { result ≤ length self.now.of.items }
    {
        for at in 0..self.of.len() {
            if self.of[at].start < start {
                return at;
            }
        }
        self.of.len()
    }

    // The first window that seems to reach `e`, where a token can name it.
    fn spellable(&self, e: u64) -> Option<Window>
        ensures { IfSome result (λ w. w.start < 2 ^ 63 × w.tail < 2 ^ 63) }
    {
        let window = self.find_seeming(e)?;
        if window.start >= 1 << 63 || window.tail >= 1 << 63 {
            return None;
        }
        Some(window)
    }

    // The first window that reaches `e` by the phases that are listed.
    fn find_seeming(&self, e: u64) -> Option<Window> {
        for tail in self.tails.as_slice() {
            if let Some(window) = self.reaching_with(*tail, e) {
                return Some(window);
            }
        }
        None
    }

    // .. of phases with at least that tail.
    fn reaching_with(&self, tail: u64, e: u64) -> Option<Window> {
        let mut behind = tail;
        for phases in self.of.as_slice() {
            if phases.tail >= tail {
                behind = behind.saturating_add(phases.length);
                if phases.start.saturating_add(behind) >= e {
                    let start = phases.start;
                    return Some(Window { start, tail });
                }
            }
        }
        None
    }
}
