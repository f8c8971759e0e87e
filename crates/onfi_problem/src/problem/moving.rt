//! Moves made in place, and taken back.

ghost use Rattle.std.specs.Prelude.{◌≡◌, ◌+◌, ◌*◌, ◌≤◌, ◌<◌, ◌^◌, IfOk, List, [], length, slice_index_or};
ghost use Rattle.onfi_timing.specs.Phases.{phase_length};
ghost use Rattle.onfi_request.specs.declared.want.Want.{Want};
ghost use Rattle.onfi_group.specs.Group.{group_spans, lun_of};
ghost use Rattle.onfi_problem.specs.Left.{InLimits};
ghost use Rattle.onfi_problem.specs.Moves.{IsMove, earliest, move_lun, lun_after, without, Next, Start};
ghost use Rattle.onfi_problem.specs.Position.{move_of, lun_named, moved, restored, waiting_of, state_of};

use super::Problem;
use crate::moves::{Lun, Move, Undo};
use onfi_group::{Group, phase_length, wait_before};
use onfi_request::Want;
use onfi_timing::Timing;
use std::alloc::{AllocError, Global};

impl Problem {
    /// When the phase of a move may start at the earliest, in ns.
    pub fn earliest(&self, m: &Move) -> u64
        requires step { IsMove self.now.problem (move_of self.now.groups m.now) }
        requires lun { move_lun (move_of self.now.groups m.now) ≡ lun_named m.now }
        ensures { result ≡ earliest self.now.problem (move_of self.now.groups m.now) }
    {
        let state = self.luns[m.lun() as usize];
        self.bus_free.max(state.time)
    }

    /// The problem after a move: its phase runs from its earliest start.
    ///
    /// # Errors
    /// Only where memory was refused.
    pub fn after(&self, alloc: Global, m: &Move) -> Result<Problem, AllocError>
        requires step { IsMove self.now.problem (move_of self.now.groups m.now) }
        requires lun { move_lun (move_of self.now.groups m.now) ≡ lun_named m.now }
        ensures { IfOk result (λ p. p ≡ moved self.now m.now) }
    {
        let mut problem = self.copy(alloc)?;
        problem.advance(m);
        Ok(problem)
    }

    /// Makes a move: its phase runs from its earliest start. What it answers takes the move back.
    #[inline(always)]
    pub fn advance(&mut self, m: &Move) -> Undo
        requires step { IsMove self.old.problem (move_of self.old.groups m.now) }
        requires lun { move_lun (move_of self.old.groups m.now) ≡ lun_named m.now }
        ensures moved { self.new ≡ moved self.old m.now }
        ensures undo { restored self.new result ≡ self.old }
        ensures within { result.lun < length self.new.problem.luns }
        ensures limits { InLimits (restored self.new result).problem }
    {
        let lun = m.lun();
        let waiting = self.waiting;
        let undo = Undo {
            lun,
            state: self.luns[lun as usize],
            bus_free: self.bus_free,
            waiting,
        };
        match *m {
            Move::Next { lun } => self.go_on(lun),
            Move::Start { lun, place } => self.start(lun, place),
        }
        undo
    }

    // Runs the next phase of a LUN's group.
    fn go_on(&mut self, lun: u8)
        requires { IsMove self.old.problem (Next lun) }
        ensures { self.new ≡ moved self.old (Move.Next lun) }
    {
        let state = self.luns[lun as usize];
        let start = self.bus_free.max(state.time);
        let group = &self.groups[state.place as usize];
        let (bus_free, behind) = run(&self.timing, group, state.place, state.next, start);
        self.luns[lun as usize] = behind;
        self.bus_free = bus_free;
    }

    // Runs the first phase of a group on a free LUN.
    fn start(&mut self, lun: u8, place: u8)
        requires step { IsMove self.old.problem (Start (slice_index_or self.old.groups place [])) }
        requires lun { lun_of (slice_index_or self.old.groups place []) ≡ lun }
        ensures { self.new ≡ moved self.old (Move.Start lun place) }
    {
        let state = self.luns[lun as usize];
        let start = self.bus_free.max(state.time);
        let group = &self.groups[place as usize];
        let (bus_free, behind) = run(&self.timing, group, place, 0, start);
        let mut waiting = self.waiting;
        leave(&mut waiting, self.wants.as_slice(), group);
        self.waiting = waiting;
        self.luns[lun as usize] = behind;
        self.bus_free = bus_free;
    }

    /// Takes a move back.
    pub fn undo(&mut self, undo: Undo)
        requires limits { InLimits (restored self.old undo).problem }
        requires lun { undo.lun < length self.old.problem.luns }
        ensures { self.new ≡ restored self.old undo }
    {
        let waiting = undo.waiting;
        self.luns[undo.lun as usize] = undo.state;
        self.bus_free = undo.bus_free;
        self.waiting = waiting;
    }
}

// When phase `next` of the group at that place has ended that runs from `start`, and what its LUN does then.
fn run(timing: &Timing, group: &Group, place: u8, next: u8, start: u64) -> (u64, Lun)
    requires start { start < 2 ^ 62 }
    requires next { next < 2 * length group.now }
    ensures ended { result.0 ≡ start + phase_length (group_spans timing.now group.now) (length group.now) next }
    ensures state { (groups : List (List Want)) → slice_index_or groups place [] ≡ group.now →
        state_of groups result.1 ≡ lun_after timing.now group.now next result.0 }
{
    let members = group.members();
    let ended = start + phase_length(timing, members, next as usize);
    let next = next + 1;
    let behind = if (next as usize) < 2 * members.len() {
        Lun {
            next,
            place,
            time: ended + wait_before(timing, members, next as usize),
        }
    } else {
        Lun {
            next: 0,
            place,
            time: ended,
        }
    };
    (ended, behind)
}

// Takes the marks from the members of a group.
fn leave(waiting: &mut [bool; 8], wants: &[Want], group: &Group)
    requires { length wants.now ≤ 8 }
    ensures { waiting_of waiting.new wants.now ≡ without group.now (waiting_of waiting.old wants.now) }
{
    for (i, want) in wants.iter().enumerate() {
        if group.has(want) {
            waiting[i] = false;
        }
    }
}
