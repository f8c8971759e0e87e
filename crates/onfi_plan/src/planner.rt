ghost use Rattle.std.specs.Prelude.{◌≡◌, ◌≤◌, ℕ, Bool, IsTrue, IfOk, IfErr};
ghost use Rattle.onfi_problem.specs.Position.{Position};
ghost use Rattle.onfi_schedule.specs.Schedule.{Legal, finish};
ghost use Rattle.onfi_check.specs.Nodes.{HasMoreNodes};
ghost use Rattle.onfi_known_check.specs.Laws.{NoneBefore};
ghost use Rattle.onfi_planner.specs.Planning.{AreRising};
ghost use Rattle.onfi_plan.specs.Certificate.{ShowsBelow};
ghost use Rattle.onfi_plan.specs.declared.plan.Certificate.{Certificate as Shown};
ghost use Rattle.onfi_plan.specs.declared.plan.Plan.{Plan as APlan};

use crate::plan::Plan;
use onfi_planner::{Limit, PlanFault};
use onfi_problem::Problem;
use std::alloc::Global;

/// What plans the batches of a channel.
pub trait Planner {
    /// Whether it is exact: no legal schedule ends before its plans.
    ghost exact: { Bool };

    /// Which certificates it gives.
    ghost certifies: { Shown → Type 0 };

    /// What else it promises of its plan of a problem, within that limit.
    ghost promises: { Self → Position → ℕ → APlan → Type 0 };

    /// Holds of one whose search may be over.
    ghost stops: { Self → Type 0 };

    /// A legal schedule of the problem, its groups by rising first start, when it ends, and a certificate for a number before
    /// which no legal schedule ends. A search opens at most `limit` nodes.
    ///
    /// # Errors
    /// `Over` only where `limit` nodes were opened and the tree of the problem has more: its nodes are the paths of moves
    /// on which no bound reaches the finish of the first schedule. `Memory` where memory was refused.
    fn plan(&self, alloc: Global, problem: &Problem, limit: Limit) -> Result<Plan, PlanFault>
        ensures legal { IfOk result (λ plan. Legal problem.now.problem plan.schedule) }
        ensures finish { IfOk result (λ plan. finish problem.now.problem plan.schedule ≡ plan.finish) }
        ensures rising { IfOk result (λ plan. AreRising plan.schedule.groups) }
        ensures below { IfOk result (λ plan. plan.below ≤ plan.finish) }
        ensures none_before { IfOk result (λ plan. NoneBefore problem.now.problem plan.below) }
        ensures shown { IfOk result (λ plan. ShowsBelow plan.certificate problem.now.all problem.now.problem plan.below) }
        ensures exact { IfOk result (λ plan. IsTrue exact → plan.below ≡ plan.finish) }
        ensures kind { IfOk result (λ plan. certifies plan.certificate) }
        ensures promised { IfOk result (promises self.now problem.now limit) }
        ensures opened { IfOk result (λ plan. plan.opened ≤ limit) }
        ensures over { IfErr result (λ fault. (opened : ℕ) → fault ≡ PlanFault.Over opened → (opened ≡ limit) × HasMoreNodes problem.now.problem limit) }
        ensures stops { IfErr result (λ fault. (opened : ℕ) → fault ≡ PlanFault.Over opened → stops self.now) };
}
