//! How many commands of each operation are left, kept from node to node of a walk.

ghost use Rattle.std.specs.Prelude.{◌≡◌, ◌+◌, ◌^◌, ◌<◌, ◌≤◌, ◌↔◌, IsTrue, if◌then◌else◌, length, slice_index_or, []};
ghost use Rattle.onfi_timing.specs.declared.operation.Operation.{Operation as AnyOperation};
ghost use Rattle.onfi_group.specs.Words.{total};
ghost use Rattle.onfi_problem.specs.Moves.{IsMove, after, move_lun, Next, Start};
ghost use Rattle.onfi_problem.specs.Position.{lun_named, move_of, state_of, waiting_of};
ghost use Rattle.onfi_problem.specs.Problem.{Problem as AnyProblem};
ghost use Rattle.onfi_bound.specs.Bounds.{same_operation, trail};
ghost use Rattle.onfi_bound.specs.Commands.{AreCommands, count_of, commands_on, one_of};
ghost use Rattle.onfi_bound.specs.Reaching.{Reaches};

use crate::bound::Bound;
use crate::bounds::trail_by;
use crate::operations::Operations;
use crate::reaching::is_reached;
use onfi_group::Group;
use onfi_problem::{Lun, Move, Problem};
use onfi_request::Want;
use onfi_timing::{Operation, Timing};

/// How many commands of each operation are left to a problem, of its running groups and its wants.
///
/// A walk that makes moves keeps them by [`Commands::after`], and asks for the trail bound without a look at each LUN.
#[derive(Clone, Copy, Debug, PartialEq, Eq)]
pub struct Commands {
    pub read: u8,
    pub program: u8,
    pub erase: u8,
}

impl Commands {
    /// Those of a problem.
    pub fn of(problem: &Problem) -> Commands
        ensures { AreCommands problem.now.problem result }
    {
        problem.in_limits();
        let groups = problem.groups();
        let mut counts = Commands::of_wants(problem.wants(), problem.waiting());
        for lun in problem.luns() {
            counts = counts.with_lun(groups, *lun);
        }
        counts
    }

    // Those of the marked wants.
    fn of_wants(wants: &[Want], marks: &[bool; 8]) -> Commands
        requires { length wants.now ≤ 8 }
        ensures counts { (operation : AnyOperation) → count_of result operation ≡ total (one_of operation) (waiting_of marks.now wants.now) }
        ensures few { (operation : AnyOperation) → count_of result operation ≤ 8 }
    {
        let mut counts = Commands {
            read: 0,
            program: 0,
            erase: 0,
        };
        for (i, want) in wants.iter().enumerate() {
            if marks[i] {
                counts = counts.with(want.kind.operation(), 1);
            }
        }
        counts
    }

    // These and those of a LUN's running group.
    fn with_lun(self, groups: &[Group], lun: Lun) -> Commands
        requires place { 1 ≤ lun.next → lun.place < length groups.now }
        requires room { (operation : AnyOperation) → count_of self operation ≤ 40 }
        ensures counts { (operation : AnyOperation) → count_of result operation ≡ count_of self operation + commands_on operation (state_of groups.now lun) }
        ensures few { (operation : AnyOperation) → count_of result operation ≤ count_of self operation + 4 }
    {
        if lun.next == 0 {
            return self;
        }
        let group = &groups[lun.place as usize];
        let left = group.len().saturating_sub(lun.next as usize);
        self.with(group.operation(), left as u8)
    }

    // These and that many more of an operation.
    fn with(self, more: Operation, number: u8) -> Commands
        requires { (operation : AnyOperation) → count_of self operation + number < 2 ^ 8 }
        ensures { (operation : AnyOperation) → count_of result operation ≡ count_of self operation + (if same_operation operation more then number else 0) }
    {
        match more {
            Operation::Read => Commands {
                read: self.read + number,
                ..self
            },
            Operation::Program => Commands {
                program: self.program + number,
                ..self
            },
            Operation::Erase => Commands {
                erase: self.erase + number,
                ..self
            },
        }
    }

    // One of an operation less.
    fn less_one(self, less: Operation) -> Commands
        requires { 1 ≤ count_of self less }
        ensures { (operation : AnyOperation) → count_of result operation + (if same_operation operation less then 1 else 0) ≡ count_of self operation }
    {
        match less {
            Operation::Read => Commands {
                read: self.read - 1,
                ..self
            },
            Operation::Program => Commands {
                program: self.program - 1,
                ..self
            },
            Operation::Erase => Commands {
                erase: self.erase - 1,
                ..self
            },
        }
    }

    /// Those that are left to what a move leaves of the problem.
    pub fn after(self, problem: &Problem, m: Move) -> Commands
        requires counts { AreCommands problem.now.problem self }
        requires step { IsMove problem.now.problem (move_of problem.now.groups m) }
        ensures { AreCommands (after problem.now.problem (move_of problem.now.groups m)) result }
    {
        match m {
            Move::Next { lun } => self.after_next(problem, lun),
            Move::Start { place, .. } => self.after_start(problem, place),
        }
    }

    fn after_next(self, problem: &Problem, lun: u8) -> Commands
        requires counts { AreCommands problem.now.problem self }
        requires step { IsMove problem.now.problem (Next lun) }
        ensures { AreCommands (after problem.now.problem (Next lun)) result }
    {
        problem.in_limits();
        let state = problem.luns()[lun as usize];
        let group = &problem.groups()[state.place as usize];
        if (state.next as usize) < group.len() {
            self.less_one(group.operation())
        } else {
            self
        }
    }

    fn after_start(self, problem: &Problem, place: u8) -> Commands
        requires counts { AreCommands problem.now.problem self }
        requires step { IsMove problem.now.problem (Start (slice_index_or problem.now.groups place [])) }
        ensures { AreCommands (after problem.now.problem (Start (slice_index_or problem.now.groups place []))) result }
    {
        problem.in_limits();
        self.less_one(problem.group(place).operation())
    }

    /// The trail bound of a problem to which these are left, in ns of the channel's clock; None where none is left.
    pub fn trail(self, problem: &Problem) -> Option<u64>
        requires { AreCommands problem.now.problem self }
        ensures { result ≡ trail problem.now.problem }
    {
        let timing = problem.timing();
        self.trail_from(timing, problem.bus_free())
    }

    // The trail bound, in ns, of any problem with these phase lengths whose bus is free from `bus_free` on and to which
    // these are left.
    fn trail_from(self, timing: &Timing, bus_free: u64) -> Option<u64>
        requires { bus_free < 2 ^ 62 }
        ensures { (p : AnyProblem) → timing.now ≡ p.timing → bus_free ≡ p.bus_free → AreCommands p self → result ≡ trail p }
    {
        let operations = Operations {
            read: self.read > 0,
            program: self.program > 0,
            erase: self.erase > 0,
        };
        let reads = self.read as u64 * timing.read.cmd;
        let programs = self.program as u64 * timing.program.cmd;
        let erases = self.erase as u64 * timing.erase.cmd;
        trail_by(timing, bus_free, reads + programs + erases, operations)
    }

    /// Whether the trail bound of a problem to which these are left is at least `e` ns.
    pub fn trail_reaches(self, problem: &Problem, e: u64) -> bool
        requires { AreCommands problem.now.problem self }
        ensures { IsTrue result ↔ Reaches problem.now.problem e Bound.Trail }
    {
        is_reached(self.trail(problem), e)
    }

    /// Whether the trail bound of what a move leaves is at least `e` ns, where these are left before the move. The move
    /// isn't made.
    pub fn trail_reaches_after(self, problem: &Problem, m: Move, e: u64) -> bool
        requires counts { AreCommands problem.now.problem self }
        requires step { IsMove problem.now.problem (move_of problem.now.groups m) }
        requires lun { move_lun (move_of problem.now.groups m) ≡ lun_named m }
        ensures { IsTrue result ↔ Reaches (after problem.now.problem (move_of problem.now.groups m)) e Bound.Trail }
    {
        let timing = problem.timing();
        let left = self.after(problem, m);
        is_reached(left.trail_from(timing, problem.end_of(m)), e)
    }
}
