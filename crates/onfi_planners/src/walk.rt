//! The walk for a cheaper run.

ghost use Rattle.std.specs.Prelude.{◌≡◌, ◌≤◌, ◌<◌, ◌-◌, false, IfOk, IfSome, OnOk, length};
ghost use Rattle.std.specs.List.{AllByRecursion as Each};
ghost use Rattle.onfi_problem.specs.Moves.{AreMoves};
ghost use Rattle.onfi_problem.specs.Position.{moves_of};
ghost use Rattle.onfi_problem.specs.Starts.{IsNamed};
ghost use Rattle.onfi_known_plan.specs.Steps.{IsStep};
ghost use Rattle.onfi_planners.specs.Steps.{IsFound, IsWalk};

use crate::aim::Aim;
use crate::floor::Floor;
use crate::seen::{Node, Seen};
use onfi_bound::Loads;
use onfi_planner::{Begun, Best};
use onfi_problem::{Move, Moves, Problem};
use std::alloc::AllocError;

/// What a walk keeps beside the best run: what that costs, how many nodes may still be opened, what was seen, and what is
/// left.
#[derive(Drop)]
pub struct Notes {
    pub cost: u128,
    pub left: u32,
    pub seen: Seen,
    pub floor: Floor,
    /// The LUN of the last move.
    pub lun: u8,
}

/// What a walk goes by: what it is after, and the loads of the problem that it began with.
#[derive(Drop)]
pub struct Guide {
    pub aim: Aim,
    pub loads: Loads,
}

/// Looks below a node, before which posts cost `cost`, for a run that costs less than the best and ends in time; says
/// whether it found one.
#[cycle(search)]
pub fn search(
    problem: &mut Problem,
    guide: &Guide,
    cost: u128,
    best: &mut Best,
    notes: &mut Notes,
) -> Result<bool, AllocError>
    requires { IsWalk problem.old guide.now.loads }
    ensures problem { OnOk result (problem.new ≡ problem.old) }
    ensures found { IfOk result (IsFound problem.old best.old best.new) }
    ensures idle { notes.old.left ≡ 0 → IfOk result (λ improved. improved ≡ false) }

    // A node takes one of those that may be opened, and none is opened without.
    ensures spent { notes.new.left ≤ notes.old.left - 1 }
{
    if notes.left == 0 {
        return Ok(false);
    }
    notes.left -= 1;
    let bus_free = problem.bus_free();
    let node = Node::of(problem, cost);
    let too_late = guide.aim.latest.saturating_add(1);
    if notes.seen.has_better(&node) || guide.loads.closing(problem, too_late).is_some() {
        return Ok(false);
    }
    notes.seen.keep(node)?;
    let mut moves = Moves::new();
    problem.list_steps(&mut moves);
    if !moves.is_empty() {
        return search_children(problem, guide, &moves, cost, best, notes);
    }
    if cost >= notes.cost {
        return Ok(false);
    }
    notes.cost = cost;
    best.finish = bus_free;
    best.steps.clear();
    Ok(true)
}

// Looks below the moves of a node, what promises most first.
#[cycle(search)]
fn search_children(
    problem: &mut Problem,
    guide: &Guide,
    moves: &Moves,
    cost: u128,
    best: &mut Best,
    notes: &mut Notes,
) -> Result<bool, AllocError>
    requires walk { IsWalk problem.old guide.now.loads }
    requires few { length moves.now ≤ 87 }
    requires moves { AreMoves problem.old.problem (moves_of problem.old.groups moves.now) }
    requires named { Each (IsNamed problem.old.groups) moves.now }
    ensures problem { OnOk result (problem.new ≡ problem.old) }
    ensures found { IfOk result (IsFound problem.old best.old best.new) }
    ensures spent { notes.new.left ≤ notes.old.left }
{
    let listed = moves.as_slice();
    let mut children = Children::new();
    list_children(problem, &guide.aim, listed, cost, notes, &mut children);
    let mut improved = false;
    for _ in 0..listed.len() {
        let Some(at) = children.take_least(listed.len(), notes.cost) else {
            return Ok(improved);
        };
        if visit(problem, guide, listed[at], cost, best, notes)? {
            improved = true;
        }
    }
    Ok(improved)
}

// Looks below a step; says whether it found something.
#[cycle(search)]
fn visit(
    problem: &mut Problem,
    guide: &Guide,
    step: Move,
    cost: u128,
    best: &mut Best,
    notes: &mut Notes,
) -> Result<bool, AllocError>
    requires walk { IsWalk problem.old guide.now.loads }
    requires step { IsStep problem.old step }
    ensures problem { OnOk result (problem.new ≡ problem.old) }
    ensures found { IfOk result (IsFound problem.old best.old best.new) }
    ensures spent { notes.new.left ≤ notes.old.left - 1 }
{
    let start = problem.earliest(&step);
    let weight = notes.floor.weight_of(&guide.aim, step);
    let rest = notes.floor.rest_of(step.lun());
    let undo = problem.advance(&step);
    notes.lun = step.lun();
    let cost = with_post(cost, weight, problem.bus_free());
    let improved = search(problem, guide, cost, best, notes)?;
    problem.undo(undo);
    notes.floor.put(step.lun(), rest);
    if improved {
        best.steps.push(Begun { step, start })?;
    }
    Ok(improved)
}

// What a run costs at least after each of the moves that don't yield: one that may go only once all moves of some LUN
// are over comes after them. Where each phase apart costs no less than the best run, nothing is hoped of the move.
fn list_children(
    problem: &Problem,
    aim: &Aim,
    listed: &[Move],
    cost: u128,
    notes: &mut Notes,
    children: &mut Children,
)
    requires { length listed.now ≤ 87 }
    ensures { notes.new.left ≡ notes.old.left }
{
    notes.floor.look_at(problem, aim, notes.lun);
    let until = soonest_end(problem, aim, listed, &notes.floor);
    for (at, step) in listed.iter().enumerate() {
        let phase = notes.floor.phase_of(problem, aim, *step);
        if phase.start < until {
            let least = cost.saturating_add(notes.floor.cost_apart(problem, aim, phase));
            if least < notes.cost {
                let more = notes.floor.more_in_line(problem, aim, phase);
                children.put(at, least.saturating_add(more));
            }
        }
    }
}

// By when all moves of a LUN have ended, for the LUN of which they end first, in ns.
fn soonest_end(problem: &Problem, aim: &Aim, listed: &[Move], floor: &Floor) -> u64 {
    let mut ends = [0; 8];
    for step in listed {
        let end = floor.phase_of(problem, aim, *step).end;
        let lun = (step.lun() % 8) as usize;
        ends[lun] = end.max(ends[lun]);
    }
    least_of(&ends)
}

// The least of the ends that there are.
fn least_of(ends: &[u64; 8]) -> u64 {
    let mut least = u64::MAX;
    for end in ends {
        if *end > 0 {
            least = least.min(*end);
        }
    }
    least
}

// What posts cost with one more that ends then, in ns.
fn with_post(cost: u128, weight: u16, end: u64) -> u128 {
    cost.saturating_add((weight as u128).saturating_mul(end as u128))
}

// What a run after each move of a node costs at least; the greatest number where no run is looked for.
#[derive(Clone, Copy)]
struct Children {
    values: [u128; 87],
}

impl Children {
    // No move to look past. A walk makes it where it stands, since it is long to copy.
    #[inline(always)]
    fn new() -> Children {
        Children {
            values: [u128::MAX; 87],
        }
    }

    // What a run after the move at a place costs at least.
    fn put(&mut self, at: usize, value: u128)
        requires { at < 87 }
    {
        self.values[at] = value;
    }

    // The place of the move of least value, among the first `count`, where that is below a cost; each place once.
    fn take_least(&mut self, count: usize, below: u128) -> Option<usize>
        requires { count ≤ 87 }
        ensures { IfSome result (λ at. at < count) }
    {
        let mut least = below;
        let mut place = None;
        for at in 0..count {
            if self.values[at] < least {
                least = self.values[at];
                place = Some(at);
            }
        }
        if let Some(at) = place {
            self.values[at] = u128::MAX;
        }
        place
    }
}
