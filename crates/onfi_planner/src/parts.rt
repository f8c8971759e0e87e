//! The parts of a problem's tree: what stands below a move of its root that doesn't yield.

ghost use Rattle.std.specs.Prelude.{◌≡◌, ◌⊎◌, ℕ, ◌+◌, ◌≤◌, ◌<◌, IfOk, IfErr, List, Option, length, vec_len, slice_index_or};
ghost use Rattle.std.specs.List.{AllByRecursion as Each};
ghost use Rattle.onfi_group.specs.Words.{Has};
ghost use Rattle.onfi_problem.specs.Moves.{IsMove, AreMoves};
ghost use Rattle.onfi_problem.specs.Left.{InLimits};
ghost use Rattle.onfi_problem.specs.Position.{move_of, moves_of, moved};
ghost use Rattle.onfi_problem.specs.Starts.{IsNamed};
ghost use Rattle.onfi_bound.specs.Loads.{AreLoads};
ghost use Rattle.onfi_check.specs.Nodes.{HasPartsWithin, IsSplitOver, OpensNodes};
ghost use Rattle.onfi_planner.specs.Opening.{AreYields};
ghost use Rattle.onfi_planner.specs.Parts.{IsPart, AreFound, opened_by, parts_of};
ghost use Rattle.onfi_planner.specs.Planning.{Found, IsOver, IsRoot};

use crate::closing::closing_token;
use crate::dealing::do_in_turn;
use crate::fault::PlanFault;
use crate::gate::PartGate;
use crate::limit::Limit;
use crate::root::Root;
use crate::search::{Best, Count, Stop, visit};
use crate::yields::yields_of;
use onfi_bound::{Loads, bus};
use onfi_check::last_ends;
use onfi_problem::{Move, Problem};
use std::alloc::{AllocError, Global};
use std::thread::Threads;

/// What the search of a part found: what ends first of it and of the first schedule, and how many nodes were opened.
#[derive(Drop)]
pub struct Part {
    pub best: Best,
    pub opened: u32,
}

/// Searches the parts below a root by several workers, each part from the first schedule on, and leaves what ends first;
/// among equals the first schedule, then the first part. Returns how many nodes were opened, the root among them.
///
/// # Errors
/// `Over` with the limit where a part has more nodes; else with how many nodes the parts have together, where they are
/// more than 1,048,575. `Memory` where memory was refused.
pub fn search_parts<R: Threads + Sync, G: PartGate + Sync>(
    rt: &R,
    alloc: Global,
    root: &mut Root,
    limit: u32,
    workers: usize,
    gate: &G,
) -> Result<u32, PlanFault>
    requires root { IsRoot root.old.problem root.old }
    requires few { limit ≤ 1048576 }
    requires workers { 1 ≤ workers }
    ensures problem { root.new.problem ≡ root.old.problem }
    ensures loads { root.new.loads ≡ root.old.loads }
    ensures found { IfOk result (λ _. Found root.old.problem root.new.best) }
    ensures opened { IfOk result (λ opened. OpensNodes root.old.problem.problem root.new.best.finish opened) }
    ensures parts { IfOk result (λ opened. HasPartsWithin root.old.problem.problem root.new.best.finish opened limit) }
    ensures some_opened { IfOk result (λ opened. 1 ≤ opened) }
    ensures within { IfOk result (λ opened. opened ≤ 1048576) }
    ensures over { IfErr result (λ fault. (n : ℕ) → fault ≡ PlanFault.Over n → IsSplitOver root.old.problem.problem limit n) }
{
    if closing_token(
        &root.problem,
        &root.loads,
        bus(&root.problem),
        root.best.finish,
    )
    .is_some()
    {
        return Ok(1);
    }
    let moves = root.problem.steps();
    let parts = list_parts(alloc, &root.problem, moves.as_slice())?;
    let found = match search_each(rt, root, parts.as_slice(), limit, workers, gate) {
        Ok(found) => found,
        Err(Stop::Over) => return Err(PlanFault::Over { opened: limit }),
        Err(Stop::Memory) => return Err(PlanFault::Memory),
    };
    let opened = first_best(&mut root.best, found);
    if opened > Limit::MOST {
        return Err(PlanFault::Over { opened: opened - 1 });
    }
    Ok(opened)
}

// The moves that don't yield, in their order.
fn list_parts(alloc: Global, problem: &Problem, moves: &[Move]) -> Result<Vec<Move>, AllocError>
    requires moves { AreMoves problem.now.problem (moves_of problem.now.groups moves.now) }
    requires named { Each (IsNamed problem.now.groups) moves.now }
    ensures { IfOk result (λ parts. (yields : List (Option ℕ)) × AreYields problem.now.problem (moves_of problem.now.groups moves.now) yields × (parts.items ≡ parts_of yields moves.now)) }
{
    let ends = last_ends(problem, moves);
    let yields = yields_of(problem, moves, &ends);
    let mut parts = Vec::new(alloc);
    for step in moves {
        if yields[step.lun() as usize].is_none() {
            parts.push(*step)?;
        }
    }
    Ok(parts)
}

// What the searches of all parts found, in their order.
fn search_each<R: Threads + Sync, G: PartGate + Sync>(
    rt: &R,
    root: &Root,
    parts: &[Move],
    limit: u32,
    workers: usize,
    gate: &G,
) -> Result<Vec<Part>, Stop>
    requires limits { InLimits root.now.problem.problem }
    requires loads { AreLoads root.now.problem root.now.loads.of.items }
    requires workers { 1 ≤ workers }
    requires moves { Each (λ m. IsMove root.now.problem.problem (move_of root.now.problem.groups m)) parts.now }
    requires named { Each (IsNamed root.now.problem.groups) parts.now }
    ensures found { IfOk result (λ found. AreFound root.now.problem root.now.best.finish limit parts.now found.items) }
    ensures over { IfErr result (λ stop. stop ≡ Stop.Over → (m : _) × Has parts.now m × IsOver (moved root.now.problem m).problem root.now.best.finish 0 limit limit) }
{
    let alloc = *root.best.steps.allocator();
    let problem = &root.problem;
    let loads = &root.loads;
    let finish = root.best.finish;
    do_in_turn(
        rt,
        alloc,
        parts.len(),
        workers,
        &move |part: usize| -> Result<Part, Stop>
            requires { (part < length parts.now) × InLimits problem.now.problem × AreLoads problem.now loads.now.of.items × Each (λ m. IsMove problem.now.problem (move_of problem.now.groups m)) parts.now × Each (IsNamed problem.now.groups) parts.now }
            ensures found { (d : _) → IfOk result (λ found. IsPart problem.entry.now finish limit (slice_index_or parts.entry.now part d) found) }
            ensures over { (d : _) → IfErr result (λ stop. stop ≡ Stop.Over → IsOver (moved problem.entry.now (slice_index_or parts.entry.now part d)).problem finish 0 limit limit) }
        {
            gate.before(part);
            search_part(alloc, problem, loads, parts[part], finish, limit)
        },
    )
}

// What the search below a step finds that ends before that, on a problem of its own.
fn search_part(
    alloc: Global,
    problem: &Problem,
    loads: &Loads,
    step: Move,
    finish: u64,
    limit: u32,
) -> Result<Part, Stop>
    requires limits { InLimits problem.now.problem }
    requires loads { AreLoads problem.now loads.now.of.items }
    requires step { IsMove problem.now.problem (move_of problem.now.groups step) }
    requires named { IsNamed problem.now.groups step }
    ensures found { IfOk result (λ found. IsPart problem.now finish limit step found) }
    ensures over { IfErr result (λ stop. stop ≡ Stop.Over → IsOver (moved problem.now step).problem finish 0 limit limit) }
{
    let Ok(mut at) = problem.copy(alloc) else {
        return Err(Stop::Memory);
    };
    let steps = Vec::new(alloc);
    let mut best = Best { finish, steps };
    let mut count = Count { opened: 0, limit };
    let bound = bus(&at);
    visit(&mut at, loads, bound, step, &mut best, &mut count)?;
    let opened = count.opened;
    Ok(Part { best, opened })
}

// Takes what ends before the best, and so on with the parts after it; says how many nodes were opened, with the root.
fn first_best(best: &mut Best, found: Vec<Part>) -> u32
    requires few { vec_len found ≤ 87 }
    requires small { Each (λ part. part.opened ≤ 1048576) found.items }
    ensures sooner { best.new.finish ≤ best.old.finish }
    ensures least { Each (λ part. best.new.finish ≤ part.best.finish) found.items }
    ensures one { (best.new ≡ best.old) ⊎ ((part : Part) × Has found.items part × (part.best ≡ best.new) × (best.new.finish < best.old.finish)) }
    ensures opened { result ≡ 1 + opened_by found.items }
{
    let mut opened = 1;
    for part in found {
        opened += part.opened;
        if part.best.finish < best.finish {
            *best = part.best;
        }
    }
    opened
}
