ghost use Rattle.std.specs.Prelude.{◌≡◌, ◌+◌, ◌≤◌, ◌<◌, IfOk, IfErr, true, false};
ghost use Rattle.onfi_problem.specs.Moves.{IsMove, move_lun};
ghost use Rattle.onfi_problem.specs.Left.{InLimits};
ghost use Rattle.onfi_problem.specs.Position.{move_of, moved, lun_named};
ghost use Rattle.onfi_schedule.specs.Runs.{Run};
ghost use Rattle.onfi_bound.specs.Bounds.{bus};
ghost use Rattle.onfi_bound.specs.Loads.{AreLoads};
ghost use Rattle.onfi_planner.specs.Planning.{Searched, HasOpened, IsOver, Bounded, run_of};

use crate::closing::closing_token;
use crate::yields::yields_of;
use onfi_bound::{Loads, bus_after};
use onfi_check::last_ends;
use onfi_problem::{Move, Moves, Problem};

/// A step, and when it begins.
#[derive(Clone, Copy)]
pub struct Begun {
    pub step: Move,
    pub start: u64,
}

/// The best finish so far, and the steps to it, last first.
#[derive(Drop)]
pub struct Best {
    pub finish: u64,
    pub steps: Vec<Begun>,
}

/// How many nodes a search opened, and how many it may open.
#[derive(Clone, Copy)]
pub struct Count {
    pub opened: u32,
    pub limit: u32,
}

/// Why a search gave up.
#[derive(Drop)]
pub enum Stop {
    /// As many nodes as may be are open, and there is one more.
    Over,
    /// Memory was refused.
    Memory,
}

/// Looks below a node for what ends before the best; says whether it found something. The bus bound of the node comes to
/// `bus_bound` ns.
#[cycle(search)]
pub fn search(
    problem: &mut Problem,
    loads: &Loads,
    bus_bound: u64,
    best: &mut Best,
    count: &mut Count,
) -> Result<bool, Stop>
    requires limits { InLimits problem.old.problem }
    requires loads { AreLoads problem.old loads.now.of.items }
    requires bus { bus_bound ≡ bus problem.old.problem }
    requires opened { count.old.opened ≤ count.old.limit }
    ensures problem { IfOk result (λ _. problem.new ≡ problem.old) }
    ensures found { IfOk result (λ improved. Searched problem.old best.old best.new improved) }
    ensures opened { IfOk result (λ _. HasOpened problem.old.problem best.old.finish best.new.finish count.old.opened count.new.opened) }
    ensures within { count.new.opened ≤ count.old.limit }
    ensures limit { count.new.limit ≡ count.old.limit }
    ensures over { IfErr result (λ stop. stop ≡ Stop.Over → IsOver problem.old.problem best.old.finish count.old.opened count.new.opened count.old.limit) }
{
    if count.opened == count.limit {
        return Err(Stop::Over);
    }
    count.opened += 1;
    if closing_token(problem, loads, bus_bound, best.finish).is_some() {
        return Ok(false);
    }
    let mut moves = Moves::new();
    problem.list_steps(&mut moves);
    if moves.is_empty() {
        best.finish = problem.bus_free();
        best.steps.clear();
        return Ok(true);
    }
    let steps = moves.as_slice();
    let ends = last_ends(problem, steps);
    let yields = yields_of(problem, steps, &ends);
    let mut improved = false;
    for step in steps {
        if yields[step.lun() as usize].is_some() {
            continue;
        }
        if visit(problem, loads, bus_bound, *step, best, count)? {
            improved = true;
        }
    }
    Ok(improved)
}

/// Looks below a step for what ends before the best; says whether it found something. A node that the bus bound closes is
/// counted, and its move isn't made.
#[cycle(search)]
pub fn visit(
    problem: &mut Problem,
    loads: &Loads,
    bus_bound: u64,
    step: Move,
    best: &mut Best,
    count: &mut Count,
) -> Result<bool, Stop>
    requires limits { InLimits problem.old.problem }
    requires loads { AreLoads problem.old loads.now.of.items }
    requires bus { bus_bound ≡ bus problem.old.problem }
    requires opened { count.old.opened ≤ count.old.limit }
    requires step { IsMove problem.old.problem (move_of problem.old.groups step) }
    requires lun { move_lun (move_of problem.old.groups step) ≡ lun_named step }
    ensures problem { IfOk result (λ _. problem.new ≡ problem.old) }
    ensures sooner { IfOk result (λ _. best.new.finish ≤ best.old.finish) }
    ensures least { IfOk result (λ _. Bounded (moved problem.old step).problem best.new.finish) }
    ensures run { IfOk result (λ improved. improved ≡ true → Run problem.old.problem (run_of problem.old.groups best.new.steps.items) best.new.finish) }
    ensures kept { IfOk result (λ improved. improved ≡ false → best.new ≡ best.old) }
    ensures opened { IfOk result (λ _. HasOpened (moved problem.old step).problem best.old.finish best.new.finish count.old.opened count.new.opened) }
    ensures within { count.new.opened ≤ count.old.limit }
    ensures limit { count.new.limit ≡ count.old.limit }
    ensures over { IfErr result (λ stop. stop ≡ Stop.Over → IsOver (moved problem.old step).problem best.old.finish count.old.opened count.new.opened count.old.limit) }
{
    let start = problem.earliest(&step);
    let bound = bus_after(problem, bus_bound, step);
    if bound >= best.finish {
        if count.limit == count.opened {
            let over = Stop::Over;
            return Err(over);
        }
        count.opened = count.opened + 1;
        return Ok(false);
    }
    let undo = problem.advance(&step);
    let improved = search(problem, loads, bound, best, count)?;
    problem.undo(undo);
    if improved {
        match best.steps.push(Begun { step, start }) {
            Ok(()) => {}
            Err(_) => return Err(Stop::Memory),
        }
    }
    Ok(improved)
}
