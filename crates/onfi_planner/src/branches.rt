//! The certificate of a split search.

ghost use Rattle.std.specs.Prelude.{◌≡◌, ℕ, ◌≤◌, ◌<◌, IfOk, Some, List, Option, length, map, slice_index_or};
ghost use Rattle.std.specs.List.{AllByRecursion as Each};
ghost use Rattle.onfi_problem.specs.Moves.{IsMove, AreMoves};
ghost use Rattle.onfi_problem.specs.Left.{InLimits};
ghost use Rattle.onfi_problem.specs.Position.{move_of, moves_of, lun_named};
ghost use Rattle.onfi_problem.specs.Starts.{IsNamed};
ghost use Rattle.onfi_bound.specs.Loads.{AreLoads};
ghost use Rattle.onfi_check.specs.Tree.{AcceptsTokens};
ghost use Rattle.onfi_planner.specs.Opening.{AreYields, yield_at};
ghost use Rattle.onfi_planner.specs.Parts.{IsBranch, AreBranches};
ghost use Rattle.onfi_planner.specs.Planning.{Bounded};

use crate::certificate::write_below;
use crate::closing::closing_token;
use crate::dealing::do_in_turn;
use crate::root::Root;
use crate::search::Stop;
use crate::yields::yields_of;
use onfi_bound::{Loads, bus};
use onfi_cert::{LunNumber, Token, Width, join};
use onfi_check::last_ends;
use onfi_problem::{Move, Problem};
use std::alloc::{AllocError, Global};
use std::thread::Threads;

/// The tokens of a tree that shows that nothing below a root ends before its best, the branches below it written by
/// several workers.
///
/// # Errors
/// Only where memory was refused.
pub fn write_parts<R: Threads + Sync>(
    rt: &R,
    alloc: Global,
    root: &Root,
    workers: usize,
) -> Result<Vec<Token>, AllocError>
    requires limits { InLimits root.now.problem.problem }
    requires loads { AreLoads root.now.problem root.now.loads.of.items }
    requires least { Bounded root.now.problem.problem root.now.best.finish }
    requires workers { 1 ≤ workers }
    ensures { IfOk result (λ tokens. AcceptsTokens tokens.items root.now.problem.problem root.now.best.finish) }
{
    if let Some(token) = closing_token(
        &root.problem,
        &root.loads,
        bus(&root.problem),
        root.best.finish,
    ) {
        let mut tokens = Vec::new(alloc);
        tokens.push(token)?;
        return Ok(tokens);
    }
    let moves = root.problem.steps();
    if moves.is_empty() {
        unreachable!();
    }
    let steps = moves.as_slice();
    let width = Width::of(steps.len() as u8);
    let branches = write_branches(rt, alloc, root, steps, workers)?;
    join(alloc, width, branches.as_slice())
}

// The tokens of all children of a root, in the order of its moves.
fn write_branches<R: Threads + Sync>(
    rt: &R,
    alloc: Global,
    root: &Root,
    steps: &[Move],
    workers: usize,
) -> Result<Vec<Vec<Token>>, AllocError>
    requires limits { InLimits root.now.problem.problem }
    requires loads { AreLoads root.now.problem root.now.loads.of.items }
    requires least { Bounded root.now.problem.problem root.now.best.finish }
    requires workers { 1 ≤ workers }
    requires moves { AreMoves root.now.problem.problem (moves_of root.now.problem.groups steps.now) }
    requires named { Each (IsNamed root.now.problem.groups) steps.now }
    ensures { IfOk result (λ branches. (yields : List (Option ℕ)) × AreYields root.now.problem.problem (moves_of root.now.problem.groups steps.now) yields × AreBranches root.now.problem root.now.best.finish yields steps.now (map (λ branch. branch.items) branches.items)) }
{
    let problem = &root.problem;
    let loads = &root.loads;
    let e = root.best.finish;
    let ends = last_ends(problem, steps);
    let yields = yields_of(problem, steps, &ends);
    let branches = do_in_turn(
        rt,
        alloc,
        steps.len(),
        workers,
        &move |branch: usize| -> Result<Vec<Token>, Stop>
            requires { (branch < length steps.now) × InLimits problem.now.problem × AreLoads problem.now loads.now.of.items × Bounded problem.now.problem e × Each (λ m. IsMove problem.now.problem (move_of problem.now.groups m)) steps.now × Each (IsNamed problem.now.groups) steps.now × ((lun to : ℕ) → yield_at yields lun ≡ Some to → to < 8) }
            ensures { (d : _) → IfOk result (λ tokens. IsBranch problem.entry.now e (slice_index_or steps.entry.now branch d) (yield_at yields (lun_named (slice_index_or steps.entry.now branch d))) tokens.items) }
        { write_branch(alloc, problem, loads, steps[branch], &yields, e) },
    );
    let Ok(branches) = branches else {
        return Err(AllocError);
    };
    Ok(branches)
}

// The tokens of the child after a step: the LUN that it yields to, or a tree, written on a problem of its own.
fn write_branch(
    alloc: Global,
    problem: &Problem,
    loads: &Loads,
    step: Move,
    yields: &[Option<u8>; 8],
    e: u64,
) -> Result<Vec<Token>, Stop>
    requires limits { InLimits problem.now.problem }
    requires loads { AreLoads problem.now loads.now.of.items }
    requires least { Bounded problem.now.problem e }
    requires step { IsMove problem.now.problem (move_of problem.now.groups step) }
    requires named { IsNamed problem.now.groups step }
    requires yields { (lun : ℕ) → yield_at yields.now (lun_named step) ≡ Some lun → lun < 8 }
    ensures { IfOk result (λ tokens. IsBranch problem.now e step (yield_at yields.now (lun_named step)) tokens.items) }
{
    let mut tokens = Vec::new(alloc);
    match yields[step.lun() as usize] {
        Some(lun) => {
            let Ok(_) = tokens.push(Token::Yield(LunNumber::of(lun))) else {
                return Err(Stop::Memory);
            };
        }
        None => {
            let Ok(mut at) = problem.copy(alloc) else {
                return Err(Stop::Memory);
            };
            let bus_bound = bus(&at);
            let Ok(_) = write_below(&mut at, loads, bus_bound, step, e, &mut tokens) else {
                return Err(Stop::Memory);
            };
        }
    }
    Ok(tokens)
}
