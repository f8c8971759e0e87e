ghost use Rattle.std.specs.Prelude.{◌≡◌, ◌<◌, ◌≤◌, ◌^◌, IfOk, IsErrOf, IfErr, ◌↔◌};
ghost use Rattle.onfi_problem.specs.Problem.{IsSmall, IsProblem, HasLengths};
ghost use Rattle.onfi_problem.specs.Kept.{problem_of};
ghost use Rattle.onfi_problem.specs.Left.{horizon};
ghost use Rattle.onfi_core.specs.Steps.{IsPlanned, IsPromised};
ghost use Rattle.onfi_core.specs.View.{planning_of, schedule_in, StopsBecause, stop_of};

use crate::batch::{Batch, LastPlan};
use crate::setup::Setup;
use onfi_plan::{Limit, PlanFault, Planner};
use onfi_problem::{LunState, Problem, ProblemFault};
use onfi_request::Want;
use onfi_schedule::Schedule;
use std::alloc::Global;

/// A plan, and its schedule once more, to be used up phase by phase.
#[derive(Drop)]
pub struct NextPlan {
    pub batch: Batch,
    pub left: Schedule,
}

/// Why nothing was planned.
#[derive(Clone, Copy, Debug, PartialEq, Eq)]
pub enum PlanStop {
    /// The plan might end at 2^62 ns or later.
    Clock,
    /// The search opened as many nodes as it may.
    Over { opened: u32 },
    /// Memory was refused.
    Memory,
}

/// Plans these wants on these LUNs.
pub fn plan_wants<P: Planner>(
    alloc: Global,
    planner: &P,
    setup: &Setup,
    bus_free: u64,
    luns: &[LunState],
    wants: &[Want],
) -> Result<NextPlan, PlanStop>
    requires small { IsSmall (problem_of setup.now.timing setup.now.rules bus_free luns.now wants.now) }
    requires problem { IsProblem (problem_of setup.now.timing setup.now.rules bus_free luns.now wants.now) }
    requires lengths { HasLengths (problem_of setup.now.timing setup.now.rules bus_free luns.now wants.now) }
    ensures problem { IfOk result (λ next. next.batch.problem.problem ≡ problem_of setup.now.timing setup.now.rules bus_free luns.now wants.now) }
    ensures planned { IfOk result (λ next. IsPlanned (planning_of next.batch)) }
    ensures promised { IfOk result (λ next. IsPromised P.exact P.certifies (planning_of next.batch)) }
    ensures in_time { IfOk result (λ next. horizon (problem_of setup.now.timing setup.now.rules bus_free luns.now wants.now) < 2 ^ 62) }
    ensures left { IfOk result (λ next. next.left ≡ schedule_in next.batch.plan) }
    ensures stop { IfErr result (λ stop. StopsBecause (problem_of setup.now.timing setup.now.rules bus_free luns.now wants.now) setup.now.limit stop) }
{
    let problem = match Problem::new(alloc, setup.timing, setup.rules, bus_free, luns, wants) {
        Ok(problem) => problem,
        Err(ProblemFault::Clock) => return Err(PlanStop::Clock),
        Err(ProblemFault::Memory) => return Err(PlanStop::Memory),
        Err(ProblemFault::TooMany) => unreachable!(),
        Err(ProblemFault::BadLun) => unreachable!(),
        Err(ProblemFault::NoLengths) => unreachable!(),
    };
    let limit = Limit::of(setup.limit).unwrap();
    let plan = match planner.plan(alloc, &problem, limit) {
        Ok(plan) => plan,
        Err(fault) => return Err(stop_of(fault)),
    };
    let left = plan.schedule.copy();
    let plan = LastPlan::of(plan);
    Ok(NextPlan {
        batch: Batch { problem, plan },
        left,
    })
}

// Why the planner gave no plan, as why there is none.
fn stop_of(fault: PlanFault) -> PlanStop
    ensures { result ≡ stop_of fault }
{
    match fault {
        PlanFault::Over { opened } => PlanStop::Over { opened },
        PlanFault::Memory => PlanStop::Memory,
    }
}
