//! The search that remembers nothing, as a planner.

use crate::plan::Plan;
use crate::planner::Planner;
use onfi_planner::{Counted, Limit, PlanFault, plan_counted};
use onfi_problem::Problem;
use std::alloc::Global;

/// Plans by the search that remembers nothing, [`plan`](onfi_planner::plan): it is exact, and its certificates are the
/// tokens of that search.
#[derive(Clone, Copy, Debug, Default)]
pub struct PlainPlanner;

impl Planner for PlainPlanner {
    ghost use Rattle.std.specs.Prelude.{⊤, true};
    ghost use Rattle.onfi_plan.specs.Certificate.{IsPlain, IsCounted};

    ghost exact = { true };

    ghost certifies = { IsPlain };

    ghost promises = { λ _. IsCounted };

    ghost stops = { λ _. ⊤ };

    fn plan(&self, alloc: Global, problem: &Problem, limit: Limit) -> Result<Plan, PlanFault> {
        let Counted { planned, opened } = plan_counted(alloc, problem, limit.get())?;
        Ok(Plan::of(planned, opened))
    }
}
