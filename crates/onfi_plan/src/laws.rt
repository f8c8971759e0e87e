//! What certificates show, once for all.

ghost use Rattle.std.specs.Prelude.{ℕ};
ghost use Rattle.onfi_known_check.specs.Laws.{NoneBefore};
ghost use Rattle.onfi_plan.specs.Certificate.{ShowsBelow};
ghost use Rattle.onfi_plan.specs.declared.plan.Certificate.{Certificate as Shown};

use onfi_problem::Problem;

/// No legal schedule of the problem ends before what a certificate shows; for the proof of a planner, nothing happens.
pub fn none_ends_before(problem: &Problem)
    ensures { (cert : Shown) (below : ℕ) → ShowsBelow cert problem.now.all problem.now.problem below → NoneBefore problem.now.problem below }
{
    problem.in_limits();
}
