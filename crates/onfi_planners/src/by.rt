//! How a plan is found, chosen when a program runs.

use onfi_known_plan::plan_within;
use onfi_plan::{Limit, PlainPlanner, Plan, PlanFault, Planner, none_ends_before};
use onfi_problem::Problem;
use onfi_steady::plan_by_rule;
use std::alloc::Global;

/// How a plan is found; as a planner, so that one build of a program has them all.
#[derive(Clone, Copy, Debug, Default, PartialEq, Eq)]
pub enum By {
    /// As [`PlainPlanner`]: optimal plans, with tokens.
    #[default]
    Plain,
    /// By [`plan_within`](onfi_known_plan::plan_within): the best plan that was found within the limit, with a text that shows
    /// before what none ends. It refuses for memory alone.
    Within,
    /// By [`plan_by_rule`](onfi_steady::plan_by_rule), whatever the limit, with a text that shows what the greatest of the bounds
    /// does. It refuses for memory alone.
    Rule,
}

impl Planner for By {
    ghost use Rattle.std.specs.Prelude.{◌≡◌, false};
    ghost use Rattle.onfi_planners.specs.declared.by.By.TheVariants.{Plain};
    ghost use Rattle.onfi_planners.specs.Choice.{IsAny, IsPlannedBy};

    ghost exact = { false };

    ghost certifies = { IsAny };

    ghost promises = { IsPlannedBy };

    ghost stops = { λ by. by ≡ Plain };

    /// A plan, found so.
    ///
    /// # Errors
    /// As those of that planner; `Over` never but by the plain one.
    fn plan(&self, alloc: Global, problem: &Problem, limit: Limit) -> Result<Plan, PlanFault> {
        match *self {
            By::Plain => PlainPlanner.plan(alloc, problem, limit),
            By::Within => {
                none_ends_before(problem);
                let plan = plan_within(alloc, problem, limit)?;
                Ok(plan)
            }
            By::Rule => {
                none_ends_before(problem);
                let ruled = plan_by_rule(alloc, problem)?;
                Ok(ruled)
            }
        }
    }
}
