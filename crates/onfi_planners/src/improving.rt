//! A plan made better.

ghost use Rattle.std.specs.Prelude.{◌≡◌, ◌^◌, ◌<◌, ◌≤◌, true, false, IfOk};
ghost use Rattle.onfi_schedule.specs.Schedule.{Legal, finish};
ghost use Rattle.onfi_known_check.specs.Laws.{NoneBefore};
ghost use Rattle.onfi_planner.specs.Planning.{AreRising};
ghost use Rattle.onfi_known_plan.specs.Walks.{IsRunOf};
ghost use Rattle.onfi_planners.specs.Choice.{IsMadeFrom};

use crate::aim::Aim;
use crate::cost::cost_of;
use crate::floor::Floor;
use crate::nodes::Nodes;
use crate::seen::Seen;
use crate::walk::{Guide, Notes, search};
use crate::weights::Weights;
use onfi_bound::Loads;
use onfi_plan::Plan;
use onfi_planner::{Best, schedule_of};
use onfi_problem::Problem;
use onfi_schedule::Schedule;
use std::alloc::{AllocError, Global};

/// The plan with a schedule that ends no later and costs no more by these weights, so that requests end sooner by them where the
/// finish allows it; for that at most `nodes` nodes are opened, and with 0 the plan stays as it is. No clause says that the cost
/// is the least there is; it is the least that the search has met.
///
/// What shows that nothing ends before a time shows it of this schedule too: of an optimal plan an optimal one is made.
///
/// # Errors
/// Only where memory was refused; the plan is dropped then.
pub fn make_better(
    alloc: Global,
    problem: &Problem,
    plan: Plan,
    weights: &Weights,
    nodes: Nodes,
) -> Result<Plan, AllocError>
    requires legal { Legal problem.now.problem plan.schedule }
    requires finish { finish problem.now.problem plan.schedule ≡ plan.finish }
    requires none_before { NoneBefore problem.now.problem plan.below }
    ensures legal { IfOk result (λ better. Legal problem.now.problem better.schedule) }
    ensures finish { IfOk result (λ better. finish problem.now.problem better.schedule ≡ better.finish) }
    ensures below { IfOk result (λ better. better.below ≤ better.finish) }
    ensures made { IfOk result (IsMadeFrom weights.now problem.now plan) }
    ensures as_is { nodes ≡ 0 → IfOk result (λ better. better ≡ plan) }

    // Where the groups of the plan stand by rising first start.
    ensures rising { AreRising plan.schedule.groups → IfOk result (λ better. AreRising better.schedule.groups) }
{
    Ok(make_better_counted(alloc, problem, plan, weights, nodes)?.plan)
}

/// A plan made better, and how many nodes were opened for it.
#[derive(Drop)]
pub struct Better {
    pub plan: Plan,
    pub opened: u32,
}

/// What [`make_better`] does, which also says how many nodes were opened.
///
/// # Errors
/// Those of [`make_better`].
pub fn make_better_counted(
    alloc: Global,
    problem: &Problem,
    plan: Plan,
    weights: &Weights,
    nodes: Nodes,
) -> Result<Better, AllocError>
    requires legal { Legal problem.now.problem plan.schedule }
    requires finish { finish problem.now.problem plan.schedule ≡ plan.finish }
    requires none_before { NoneBefore problem.now.problem plan.below }
    ensures legal { IfOk result (λ better. Legal problem.now.problem better.plan.schedule) }
    ensures finish { IfOk result (λ better. finish problem.now.problem better.plan.schedule ≡ better.plan.finish) }
    ensures below { IfOk result (λ better. better.plan.below ≤ better.plan.finish) }
    ensures made { IfOk result (λ better. IsMadeFrom weights.now problem.now plan better.plan) }
    ensures as_is { nodes ≡ 0 → IfOk result (λ better. better.plan ≡ plan) }
    ensures rising { AreRising plan.schedule.groups → IfOk result (λ better. AreRising better.plan.schedule.groups) }
    ensures opened { IfOk result (λ better. better.opened ≤ nodes) }
{
    let cost = cost_of(problem, &plan.schedule, weights);
    let aim = Aim::new(alloc, problem, weights, plan.finish)?;
    let walked = walk(alloc, problem, aim, cost, nodes.get())?;
    let opened = walked.opened;
    if !walked.improved {
        return Ok(Better { plan, opened });
    }
    let schedule = make_schedule(alloc, problem, &walked.best);
    if cost_of(problem, &schedule, weights) > cost || walked.best.finish > plan.finish {
        return Ok(Better { plan, opened });
    }
    let mut plan = plan;
    plan.schedule = schedule;
    plan.finish = walked.best.finish;
    Ok(Better { plan, opened })
}

// What a walk has given: the best run, where it found one, and how many nodes it opened.
#[derive(Drop)]
struct Walked {
    best: Best,
    improved: bool,
    opened: u32,
}

// Walks over the runs of a problem for one that costs less, where there may be one.
fn walk(
    alloc: Global,
    problem: &Problem,
    aim: Aim,
    cost: u128,
    limit: u32,
) -> Result<Walked, AllocError>
    ensures run { IfOk result (λ walked. walked.improved ≡ true → IsRunOf problem.now walked.best) }
    ensures small { IfOk result (λ walked. walked.improved ≡ true → walked.best.finish < 2 ^ 62) }
    ensures within { IfOk result (λ walked. walked.opened ≤ limit) }
    ensures idle { limit ≡ 0 → IfOk result (λ walked. walked.improved ≡ false) }
{
    problem.in_limits();
    let mut best = Best {
        finish: 0,
        steps: Vec::new(alloc),
    };
    let mut floor = Floor::new(problem, &aim);
    floor.look_at(problem, &aim, 0);
    if floor.cost() >= cost {
        return Ok(Walked {
            best,
            improved: false,
            opened: 0,
        });
    }
    let mut at = problem.copy(alloc)?;
    let loads = Loads::new(alloc, &at)?;
    let mut notes = Notes {
        cost,
        left: limit,
        seen: Seen::new(alloc),
        floor,
        lun: 0,
    };
    let guide = Guide { aim, loads };
    let improved = search(&mut at, &guide, 0, &mut best, &mut notes)?;
    let opened = limit - notes.left;
    Ok(Walked {
        best,
        improved,
        opened,
    })
}

// The schedule of a run.
fn make_schedule(alloc: Global, problem: &Problem, best: &Best) -> Schedule
    requires run { IsRunOf problem.now best.now }
    requires small { best.now.finish < 2 ^ 62 }
    ensures legal { Legal problem.now.problem result }
    ensures rising { AreRising result.groups }
    ensures finish { finish problem.now.problem result ≡ best.now.finish }
{
    problem.in_limits();
    schedule_of(alloc, problem, best.steps.as_slice())
}
