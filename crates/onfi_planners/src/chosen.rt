//! A planner that is chosen when a program runs.

use crate::by::By;
use crate::improving::make_better;
use crate::nodes::Nodes;
use crate::weighing::Weighing;
use onfi_plan::{Limit, Plan, PlanFault, Planner};
use onfi_problem::Problem;
use std::alloc::Global;

/// How a plan is made better.
#[derive(Clone, Copy, Debug, Default, PartialEq, Eq)]
pub struct Early {
    /// How much each request counts.
    pub weighing: Weighing,
    /// How many nodes may be opened for it.
    pub nodes: Nodes,
}

/// Plans as was chosen; where `early` is given it then makes the plan better by [`make_better`], so that requests end sooner by
/// their weights, and nothing ends later than the last phase did. Certificates are those of the plan before.
#[derive(Clone, Copy, Debug, Default, PartialEq, Eq)]
pub struct ChosenPlanner {
    pub by: By,
    pub early: Option<Early>,
}

impl Planner for ChosenPlanner {
    ghost use Rattle.std.specs.Prelude.{◌≡◌, false};
    ghost use Rattle.onfi_planners.specs.declared.by.By.TheVariants.{Plain};
    ghost use Rattle.onfi_planners.specs.Choice.{IsAny, IsChosen};

    ghost exact = { false };

    ghost certifies = { IsAny };

    ghost promises = { IsChosen };

    ghost stops = { λ planner. planner.by ≡ Plain };

    /// A plan by the planner that was chosen.
    ///
    /// # Errors
    /// As those of that planner; `Over` never but by the plain one.
    fn plan(&self, alloc: Global, problem: &Problem, limit: Limit) -> Result<Plan, PlanFault> {
        let plan = self.by.plan(alloc, problem, limit)?;
        let Some(early) = self.early else {
            return Ok(plan);
        };
        let weights = early.weighing.weights_of(problem);
        let better = make_better(alloc, problem, plan, &weights, early.nodes)?;
        Ok(better)
    }
}
