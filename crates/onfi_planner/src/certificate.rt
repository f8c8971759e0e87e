ghost use Rattle.std.specs.Prelude.{◌≡◌, ◌<◌, IfOk};
ghost use Rattle.onfi_problem.specs.Moves.{IsMove, move_lun};
ghost use Rattle.onfi_problem.specs.Left.{InLimits};
ghost use Rattle.onfi_problem.specs.Position.{move_of, moved, lun_named};
ghost use Rattle.onfi_bound.specs.Bounds.{bus};
ghost use Rattle.onfi_bound.specs.Loads.{AreLoads};
ghost use Rattle.onfi_planner.specs.Planning.{Bounded, Written};

use crate::closing::closing_token;
use crate::yields::yields_of;
use onfi_bound::{Loads, bus_after};
use onfi_cert::{LunNumber, Token, Width};
use onfi_check::last_ends;
use onfi_problem::{Move, Moves, Problem};
use std::alloc::AllocError;

/// Appends the tokens of a tree that shows that nothing below a node ends before `e`. The bus bound of the node comes to
/// `bus_bound` ns.
#[cycle(write)]
pub fn write(
    problem: &mut Problem,
    loads: &Loads,
    bus_bound: u64,
    e: u64,
    tokens: &mut Vec<Token>,
) -> Result<(), AllocError>
    requires limits { InLimits problem.old.problem }
    requires loads { AreLoads problem.old loads.now.of.items }
    requires bus { bus_bound ≡ bus problem.old.problem }
    requires least { Bounded problem.old.problem e }
    ensures problem { IfOk result (λ _. problem.new ≡ problem.old) }
    ensures written { IfOk result (λ _. Written problem.old.problem e tokens.old.items tokens.new.items) }
{
    if let Some(token) = closing_token(problem, loads, bus_bound, e) {
        tokens.push(token)?;
        return Ok(());
    }
    let mut moves = Moves::new();
    problem.list_steps(&mut moves);
    if moves.is_empty() {
        unreachable!();
    }
    let steps = moves.as_slice();
    let ends = last_ends(problem, steps);
    let yields = yields_of(problem, steps, &ends);
    tokens.push(Token::Branch(Width::of(steps.len() as u8)))?;
    for step in steps {
        match yields[step.lun() as usize] {
            Some(lun) => tokens.push(Token::Yield(LunNumber::of(lun)))?,
            None => write_below(problem, loads, bus_bound, *step, e, tokens)?,
        }
    }
    Ok(())
}

/// Appends the tokens of the child after a step. The move isn't made where the bus bound closes what it leaves.
#[cycle(write)]
pub fn write_below(
    problem: &mut Problem,
    loads: &Loads,
    bus_bound: u64,
    step: Move,
    e: u64,
    tokens: &mut Vec<Token>,
) -> Result<(), AllocError>
    requires limits { InLimits problem.old.problem }
    requires loads { AreLoads problem.old loads.now.of.items }
    requires bus { bus_bound ≡ bus problem.old.problem }
    requires least { Bounded problem.old.problem e }
    requires step { IsMove problem.old.problem (move_of problem.old.groups step) }
    requires lun { move_lun (move_of problem.old.groups step) ≡ lun_named step }
    ensures problem { IfOk result (λ _. problem.new ≡ problem.old) }
    ensures written { IfOk result (λ _. Written (moved problem.old step).problem e tokens.old.items tokens.new.items) }
{
    let bound = bus_after(problem, bus_bound, step);
    if bound >= e {
        tokens.push(Token::Bus)?;
        return Ok(());
    }
    let undo = problem.advance(&step);
    write(problem, loads, bound, e, tokens)?;
    problem.undo(undo);
    Ok(())
}
