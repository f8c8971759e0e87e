//! The schedule that a search begins with.

ghost use Rattle.std.specs.Prelude.{◌≡◌, ◌≤◌, ◌<◌, ◌^◌, IfOk, [], length};
ghost use Rattle.std.specs.List.{AllByRecursion as Each};
ghost use Rattle.onfi_problem.specs.Moves.{IsMove, AreMoves};
ghost use Rattle.onfi_problem.specs.Left.{InLimits};
ghost use Rattle.onfi_problem.specs.Position.{move_of, moves_of};
ghost use Rattle.onfi_problem.specs.Starts.{IsNamed};
ghost use Rattle.onfi_check.specs.First.{IsFirstRun, IsFirstChoice, starts_before, wants_started};
ghost use Rattle.onfi_planner.specs.Planning.{run_of};

use crate::search::Begun;
use onfi_problem::{Move, Problem};
use std::alloc::AllocError;

/// Puts the steps of the first schedule into the empty list, last first; returns when it ends, in ns.
///
/// Again and again it takes the move that may start first; among equals the one that starts the most wants; among those
/// the first.
///
/// # Errors
/// Only where memory was refused.
pub fn first_run(problem: &mut Problem, steps: &mut Vec<Begun>) -> Result<u64, AllocError>
    requires none { steps.old.items ≡ [] }
    ensures problem { IfOk result (λ _. problem.new ≡ problem.old) }
    ensures run { IfOk result (λ finish. IsFirstRun problem.old.problem (run_of problem.old.groups steps.new.items) finish) }
    ensures small { IfOk result (λ finish. finish < 2 ^ 62) }
    ensures limits { IfOk result (λ _. InLimits problem.old.problem) }
{
    let bus_free = problem.bus_free();
    let moves = problem.steps();
    if moves.is_empty() {
        return Ok(bus_free);
    }
    let step = first_choice(problem, moves.as_slice());
    let start = problem.earliest(&step);
    let undo = problem.advance(&step);
    let finish = first_run(problem, steps)?;
    problem.undo(undo);
    steps.push(Begun { step, start })?;
    Ok(finish)
}

// The move that may start first; among equals the one that starts the most wants; among those the first.
fn first_choice(problem: &Problem, moves: &[Move]) -> Move
    requires some { 1 ≤ length moves.now }
    requires moves { AreMoves problem.now.problem (moves_of problem.now.groups moves.now) }
    requires named { Each (IsNamed problem.now.groups) moves.now }
    ensures choice { IsFirstChoice problem.now.problem (move_of problem.now.groups result) }
    ensures named { IsNamed problem.now.groups result }
{
    let mut choice = moves[0];
    for m in moves {
        if goes_first(problem, *m, choice) {
            choice = *m;
        }
    }
    choice
}

// Whether a move may start before another, or as soon and starts more wants.
fn goes_first(problem: &Problem, m: Move, other: Move) -> bool
    requires step { IsMove problem.now.problem (move_of problem.now.groups m) }
    requires named { IsNamed problem.now.groups m }
    requires other_step { IsMove problem.now.problem (move_of problem.now.groups other) }
    requires other_named { IsNamed problem.now.groups other }
    ensures { result ≡ starts_before problem.now.problem (move_of problem.now.groups m) (move_of problem.now.groups other) }
{
    let start = problem.earliest(&m);
    let other_start = problem.earliest(&other);
    if start == other_start {
        return started_wants(problem, m) > started_wants(problem, other);
    }
    start < other_start
}

// How many wants a move starts.
fn started_wants(problem: &Problem, m: Move) -> usize
    requires { IsMove problem.now.problem (move_of problem.now.groups m) }
    ensures { result ≡ wants_started (move_of problem.now.groups m) }
{
    match m {
        Move::Next { .. } => 0,
        Move::Start { place, .. } => problem.group(place).len(),
    }
}
