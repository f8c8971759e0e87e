//! The walk that finds the finish, and writes the certificate.

ghost use Rattle.std.specs.Prelude.{◌≡◌, ◌+◌, ◌-◌, ◌≤◌, ◌<◌, true, false, [], ◌∷◌, ◌++◌, List, IfOk, OnOk, length};
ghost use Rattle.onfi_group.specs.Words.{Has};
ghost use Rattle.onfi_problem.specs.Moves.{Move as OneMove};
ghost use Rattle.onfi_problem.specs.Position.{move_of};
ghost use Rattle.onfi_check.specs.Nodes.{IsOpen};
ghost use Rattle.onfi_demand.specs.Demand.{of_bus};
ghost use Rattle.onfi_demand.specs.Kept.{IsKept};
ghost use Rattle.onfi_known_plan.specs.Steps.{IsStep};
ghost use Rattle.onfi_known_plan.specs.Walks.{Halfway, IsAt, IsShown, Visited};
ghost use Rattle.onfi_known_plan.specs.declared.notes.Notes.{Notes as AnyNotes};
ghost use Rattle.onfi_planner.specs.declared.search.Best.{Best as AnyBest};

use crate::closing::find_closing;
use crate::notes::Notes;
use crate::standing::Standing;
use crate::yields::Soonest;
use onfi_bound::Loads;
use onfi_cert::Width;
use onfi_check::last_ends;
use onfi_demand::Demand;
use onfi_known_check::{Token, step_after};
use onfi_planner::{Begun, Best};
use onfi_problem::{Move, Moves, Problem};
use std::alloc::AllocError;

/// What a walk has shown of a node: what that asks for, and whether a sooner finish stands below it.
#[derive(Clone, Copy)]
pub struct Shown {
    pub demand: Demand,
    pub improved: bool,
}

impl Shown {
    // Of a node that the walk gives up: it asks for nothing.
    fn give_up(improved: bool) -> Shown
        ensures demand { IsKept result.demand (of_bus 0) }
        ensures improved { result.improved ≡ improved }
    {
        let demand = Demand::of_bus(0);
        Shown { demand, improved }
    }
}

/// Looks below a node for what ends before the best, and writes the tokens of its tree. Where as many nodes are opened
/// as may be the walk is cut: it comes home with what it has found, and opens no more.
///
/// # Errors
/// Only where memory was refused.
#[cycle(search)]
pub fn search(
    problem: &mut Problem,
    loads: &Loads,
    best: &mut Best,
    notes: &mut Notes,
) -> Result<Shown, AllocError>
    requires { IsAt problem.old loads.now best.old notes.old }
    ensures problem { OnOk result (problem.new ≡ problem.old) }
    ensures shown { IfOk result (IsShown problem.old best.old best.new notes.old.opened notes.old notes.new) }
{
    if notes.opened == notes.limit {
        notes.cut = true;
        return Ok(Shown::give_up(false));
    }
    notes.opened += 1;
    let found = find_closing(
        problem,
        loads,
        best.finish,
        &notes.records,
        &mut notes.phases,
    )?;
    if let Some(closing) = found {
        notes.cert.write(closing.token, best.finish)?;
        let demand = closing.demand;
        let improved = false;
        return Ok(Shown { demand, improved });
    }
    search_open(problem, loads, best, notes)
}

// Looks below each move of an open node, which was counted, and remembers the node unless the walk was cut below it.
#[cycle(search)]
fn search_open(
    problem: &mut Problem,
    loads: &Loads,
    best: &mut Best,
    notes: &mut Notes,
) -> Result<Shown, AllocError>
    requires at { IsAt problem.old loads.now best.old notes.old }
    requires counted { 1 ≤ notes.old.opened }
    requires uncut { notes.old.cut ≡ false }
    requires is_open { IsOpen best.old.finish problem.old.problem }
    ensures problem { OnOk result (problem.new ≡ problem.old) }
    ensures shown { IfOk result (IsShown problem.old best.old best.new (notes.old.opened - 1) notes.old notes.new) }
    ensures forgotten { IfOk result (λ _. notes.new.cut ≡ true → length notes.new.records.nodes.items + notes.old.opened ≤ length notes.old.records.nodes.items + notes.new.opened) }
{
    let bus_free = problem.bus_free();
    let mut moves = Moves::new();
    problem.list_steps(&mut moves);
    if moves.is_empty() {
        best.finish = bus_free;
        best.steps.clear();
        let demand = Demand::of_bus(best.finish);
        let improved = true;
        return Ok(Shown { demand, improved });
    }
    let listed = moves.as_slice();
    let ends = last_ends(problem, listed);
    let soonest = Soonest::of(problem, &ends);
    let branch = Token::Branch(Width::of(listed.len() as u8));
    notes.cert.write(branch, best.finish)?;
    let mut standing = Standing::new();
    for step in listed {
        search_child(problem, loads, *step, &soonest, best, &mut standing, notes)?;
    }
    if notes.cut {
        return Ok(Shown::give_up(standing.improved));
    }
    soonest.raise(problem, &standing.yielded, &mut standing.asked);
    notes.records.keep(problem, standing.asked)?;
    let luns = standing.asked;
    let demand = Demand { bus: 0, luns };
    let improved = standing.improved;
    Ok(Shown { demand, improved })
}

// Looks below a step, or writes that it yields.
#[cycle(search)]
fn search_child(
    problem: &mut Problem,
    loads: &Loads,
    step: Move,
    soonest: &Soonest,
    best: &mut Best,
    standing: &mut Standing,
    notes: &mut Notes,
) -> Result<(), AllocError>
    requires at { IsAt problem.old loads.now best.old notes.old }
    requires step { IsStep problem.old step }
    requires soonest { soonest.now.lun < length problem.old.problem.luns }
    ensures problem { OnOk result (problem.new ≡ problem.old) }
    ensures more { OnOk result ((moves firsts : List OneMove) (first : AnyBest) (before : AnyNotes) → (Has firsts (move_of problem.old.groups step) → ⊥)
        → Halfway problem.old moves firsts soonest.now first best.old before notes.old standing.old
        → Halfway problem.old moves (firsts ++ move_of problem.old.groups step ∷ []) soonest.now first best.new before notes.new standing.new) }
{
    let own = step.lun();
    if soonest.is_awaited(problem, own) {
        notes.cert.write(soonest.token(), best.finish)?;
        standing.mark(own);
        return Ok(());
    }
    if visit(problem, loads, step, best, &mut standing.asked, notes)? {
        standing.improved = true;
    }
    Ok(())
}

// Looks below a step, and raises what its node asks; says whether it found something.
#[cycle(search)]
fn visit(
    problem: &mut Problem,
    loads: &Loads,
    step: Move,
    best: &mut Best,
    asked: &mut [u64; 8],
    notes: &mut Notes,
) -> Result<bool, AllocError>
    requires at { IsAt problem.old loads.now best.old notes.old }
    requires step { IsStep problem.old step }
    ensures problem { OnOk result (problem.new ≡ problem.old) }
    ensures visited { IfOk result (Visited problem.old step best.old best.new notes.old notes.new asked.old asked.new) }
{
    let start = problem.earliest(&step);
    let count = problem.lun_count();
    let undo = problem.advance(&step);
    let shown = search(problem, loads, best, notes)?;
    let behind = step_after(problem, step.lun(), start);
    problem.undo(undo);
    shown.demand.raise(&behind, count, asked);
    add(best, Begun { step, start }, shown.improved)?;
    Ok(shown.improved)
}

// Adds the step in front of those of the best schedule, where that was found after it.
fn add(best: &mut Best, begun: Begun, improved: bool) -> Result<(), AllocError>
    ensures finish { best.new.finish ≡ best.old.finish }
    ensures steps { OnOk result (improved ≡ true → best.new.steps.items ≡ best.old.steps.items ++ begun ∷ []) }
    ensures kept { OnOk result (improved ≡ false → best.new ≡ best.old) }
{
    if improved {
        best.steps.push(begun)?;
    }
    Ok(())
}
