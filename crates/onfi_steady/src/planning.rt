//! The plan of the rule.

ghost use Rattle.std.specs.Prelude.{◌≡◌, ◌+◌, ◌≤◌, IfOk};
ghost use Rattle.onfi_problem.specs.Left.{InLimits};
ghost use Rattle.onfi_schedule.specs.Schedule.{Legal, finish};
ghost use Rattle.onfi_bound.specs.Reaching.{NoneReaches, Reaches};
ghost use Rattle.onfi_planner.specs.Planning.{AreRising};
ghost use Rattle.onfi_plan.specs.Certificate.{IsRemembering, ShowsBelow};
ghost use Rattle.onfi_plan.specs.declared.plan.Certificate.TheVariants.{Text};
ghost use Rattle.onfi_steady.specs.Rule.{IsByRule};

use crate::below::{greatest_bound, token_of};
use crate::dispatch::run_by_rule;
use onfi_bound::Bound;
use onfi_known_check::text_of;
use onfi_plan::{Certificate, Plan};
use onfi_planner::schedule_of;
use onfi_problem::Problem;
use std::alloc::{AllocError, Global};

/// The schedule that the rule makes of a problem, in one pass and without a search, its groups by rising first start; and
/// what no schedule ends before, in ns: the greatest of the bounds. The certificate is the text of that bound's token, which
/// `check_known_within` of `onfi_known_check` checks.
///
/// Phase after phase goes that is next of a [`Dispatcher`](crate::Dispatcher) for which all of it waits, and no program is the newest:
/// each LUN gives what it goes on with, or the group of its oldest read that may start, else of its oldest program, else of its
/// oldest erase, with all mates that can join it; of these phases the one goes that may start soonest.
///
/// # Errors
/// Only where memory was refused.
pub fn plan_by_rule(alloc: Global, problem: &Problem) -> Result<Plan, AllocError>
    ensures legal { IfOk result (λ plan. Legal problem.now.problem plan.schedule) }
    ensures finish { IfOk result (λ plan. finish problem.now.problem plan.schedule ≡ plan.finish) }
    ensures rule { IfOk result (λ plan. IsByRule problem.now.problem plan.schedule plan.finish) }
    ensures rising { IfOk result (λ plan. AreRising plan.schedule.groups) }
    ensures below { IfOk result (λ plan. plan.below ≤ plan.finish) }
    ensures greatest { IfOk result (λ plan. NoneReaches problem.now.problem (plan.below + 1)) }
    ensures shown { IfOk result (λ plan. ShowsBelow plan.certificate problem.now.all problem.now.problem plan.below) }
    ensures kind { IfOk result (λ plan. IsRemembering plan.certificate) }
    ensures opened { IfOk result (λ plan. plan.opened ≡ 0) }
{
    problem.in_limits();
    let best = run_by_rule(alloc, problem)?;
    let schedule = schedule_of(alloc, problem, best.steps.as_slice());
    let greatest = greatest_bound(problem);
    let text = text_below(alloc, problem, greatest.bound, greatest.at)?;
    Ok(Plan {
        schedule,
        finish: best.finish,
        below: greatest.at,
        certificate: Certificate::Text(text),
        opened: 0,
    })
}

// The text of a certificate that remembers states, whose root that bound closes at once.
fn text_below(
    alloc: Global,
    problem: &Problem,
    bound: Bound,
    below: u64,
) -> Result<Vec<u8>, AllocError>
    requires limits { InLimits problem.now.problem }
    requires reaches { Reaches problem.now.problem below bound }
    ensures { IfOk result (λ text. ShowsBelow (Text text) problem.now.all problem.now.problem below) }
{
    text_of(alloc, problem.rules().strict, &[token_of(bound)])
}
