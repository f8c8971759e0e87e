//! What the bounds of a node are read from that take no look at each LUN, kept from node to node of a walk.

ghost use Rattle.std.specs.Prelude.{◌≡◌, ◌↔◌, IsTrue};
ghost use Rattle.onfi_problem.specs.Moves.{IsMove, after, move_lun};
ghost use Rattle.onfi_problem.specs.Position.{lun_named, move_of};
ghost use Rattle.onfi_bound.specs.Bounds.{bus};
ghost use Rattle.onfi_bound.specs.Commands.{AreNodeBounds};
ghost use Rattle.onfi_bound.specs.Reaching.{Reaches};

use crate::bound::Bound;
use crate::bounds::bus;
use crate::commands::Commands;
use onfi_problem::{Move, Problem};

/// The bus bound of a problem, and the commands that are left to it, from which the trail bound is read.
///
/// A walk that makes moves keeps them by [`NodeBounds::after`], and asks for both bounds of what a move leaves without
/// making the move.
#[derive(Clone, Copy)]
pub struct NodeBounds {
    /// The bus bound, in ns of the channel's clock.
    pub bus: u64,
    pub commands: Commands,
}

impl NodeBounds {
    /// Those of a problem.
    pub fn of(problem: &Problem) -> NodeBounds
        ensures { AreNodeBounds problem.now.problem result }
    {
        NodeBounds {
            bus: bus(problem),
            commands: Commands::of(problem),
        }
    }

    /// Those of what a move leaves of the problem.
    pub fn after(self, problem: &Problem, m: Move) -> NodeBounds
        requires bounds { AreNodeBounds problem.now.problem self }
        requires step { IsMove problem.now.problem (move_of problem.now.groups m) }
        requires lun { move_lun (move_of problem.now.groups m) ≡ lun_named m }
        ensures { AreNodeBounds (after problem.now.problem (move_of problem.now.groups m)) result }
    {
        NodeBounds {
            bus: bus_after(problem, self.bus, m),
            commands: self.commands.after(problem, m),
        }
    }

    /// Whether the bus bound of what a move leaves is at least `e` ns, where these are those before the move. The move
    /// isn't made.
    pub fn bus_reaches_after(self, problem: &Problem, m: Move, e: u64) -> bool
        requires bounds { AreNodeBounds problem.now.problem self }
        requires step { IsMove problem.now.problem (move_of problem.now.groups m) }
        requires lun { move_lun (move_of problem.now.groups m) ≡ lun_named m }
        ensures { IsTrue result ↔ Reaches (after problem.now.problem (move_of problem.now.groups m)) e Bound.Bus }
    {
        bus_after(problem, self.bus, m) >= e
    }
}

/// The bus bound, in ns, of what a move leaves of a problem whose own comes to `at`: later by as long as the bus idles before
/// the move, which isn't made.
#[inline(always)]
pub fn bus_after(problem: &Problem, at: u64, m: Move) -> u64
    requires bus { at ≡ bus problem.now.problem }
    requires step { IsMove problem.now.problem (move_of problem.now.groups m) }
    requires lun { move_lun (move_of problem.now.groups m) ≡ lun_named m }
    ensures { result ≡ bus (after problem.now.problem (move_of problem.now.groups m)) }
{
    let idle = problem.earliest(&m) - problem.bus_free();
    at + idle
}
