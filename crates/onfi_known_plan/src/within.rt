//! A plan at any limit.

ghost use Rattle.std.specs.Prelude.{◌≡◌, ◌+◌, ◌^◌, ◌≤◌, ◌<◌, true, false, IfOk};
ghost use Rattle.onfi_problem.specs.Left.{InLimits};
ghost use Rattle.onfi_schedule.specs.Schedule.{Legal, Optimal, finish};
ghost use Rattle.onfi_bound.specs.Loads.{AreLoads};
ghost use Rattle.onfi_check.specs.Nodes.{HasMoreNodes};
ghost use Rattle.onfi_check.specs.Nodes.{IsOpen};
ghost use Rattle.onfi_planner.specs.Planning.{AreRising};
ghost use Rattle.onfi_plan.specs.Certificate.{IsRemembering, ShowsBelow};
ghost use Rattle.onfi_known_plan.specs.ByRule.{EndsByFirst, EndsByRule};
ghost use Rattle.onfi_known_plan.specs.Text.{HasNodesIn, nodes_in};
ghost use Rattle.onfi_known_plan.specs.Walks.{HasSoMany, IsProved, IsRunOf};
ghost use Rattle.onfi_known_plan.specs.Within.{IsShownBefore, IsWithin};

use crate::gap::{Gap, narrow_gap};
use crate::planning::{Searched, search_tree};
use crate::sought::greatest_bound;
use onfi_bound::Loads;
use onfi_known_check::{Token, text_of};
use onfi_plan::{Certificate, Limit, Plan};
use onfi_planner::schedule_of;
use onfi_problem::Problem;
use std::alloc::{AllocError, Global};

/// A legal schedule of a problem, its groups by rising first start, with what no schedule ends before, in ns, and the
/// certificate that shows that. A search that remembers states walks over the tree of the problem, and once more where it has
/// found a sooner finish; each walk opens at most `limit` nodes, all of the plain search's tree.
///
/// Where none was cut, so that none had to open more, the schedule ends first and the certificate shows its finish, by a token
/// for each node that the last walk opened. Where one was cut it is the best that was found, and the certificate shows what the
/// bounds reach before anything is started; where that was the first one, another walk looks for what ends before the middle
/// between the two, and shows that where nothing does. So at any limit the schedule ends no later than the one that the rule of
/// `onfi_steady` makes, and than the one that the search begins with.
///
/// # Errors
/// Only where memory was refused.
pub fn plan_within(alloc: Global, problem: &Problem, limit: Limit) -> Result<Plan, AllocError>
    ensures legal { IfOk result (λ plan. Legal problem.now.problem plan.schedule) }
    ensures finish { IfOk result (λ plan. finish problem.now.problem plan.schedule ≡ plan.finish) }
    ensures rising { IfOk result (λ plan. AreRising plan.schedule.groups) }
    ensures below { IfOk result (λ plan. plan.below ≤ plan.finish) }
    ensures cert { IfOk result (λ plan. ShowsBelow plan.certificate problem.now.all problem.now.problem plan.below) }
    ensures kind { IfOk result (λ plan. IsRemembering plan.certificate) }
    ensures greatest { IfOk result (λ plan. plan.below < plan.finish → IsOpen (plan.below + 1) problem.now.problem) }
    ensures optimal { IfOk result (λ plan. plan.below ≡ plan.finish → Optimal problem.now.problem plan.schedule) }
    ensures short { IfOk result (λ plan. plan.below < plan.finish → HasMoreNodes problem.now.problem limit) }
    ensures by_rule { IfOk result (λ plan. EndsByRule problem.now.problem plan.finish) }
    ensures by_first { IfOk result (λ plan. EndsByFirst problem.now.problem plan.finish) }
    ensures opened { IfOk result (λ plan. plan.opened ≤ limit) }
    ensures counted { IfOk result (λ plan. plan.opened < limit → HasNodesIn problem.now.problem plan.certificate plan.opened) }
    ensures nodes { IfOk result (λ plan. HasSoMany problem.now.problem plan.opened) }
{
    let searched = search_tree(alloc, problem, limit)?;
    let Searched {
        loads,
        best,
        tokens,
        cut,
        opened,
        again,
    } = searched;
    let shown = show_before(alloc, problem, &loads, best.finish, cut, tokens)?;
    let gap = Gap {
        best,
        shown,
        opened,
        again,
    };
    let narrowed = narrow_gap(alloc, problem, &loads, gap, limit)?;
    best_plan(alloc, problem, &narrowed)
}

/// What no schedule ends before, in ns, and the tokens that show it.
#[derive(Drop)]
pub struct ShownBefore {
    pub below: u64,
    pub tokens: Vec<Token>,
}

// What is shown before the finish of the best schedule, in ns: the finish by the tokens of a walk that wasn't cut, else
// what the bounds show.
fn show_before(
    alloc: Global,
    problem: &Problem,
    loads: &Loads,
    finish: u64,
    cut: bool,
    tokens: Vec<Token>,
) -> Result<ShownBefore, AllocError>
    requires loads { AreLoads problem.now loads.now.of.items }
    requires proved { cut ≡ false → IsProved problem.now tokens.items finish }
    ensures shown { IfOk result (IsShownBefore problem.now finish) }
    ensures whole { IfOk result (λ shown. shown.below < finish → cut ≡ true) }
    ensures same { IfOk result (λ shown. cut ≡ false → shown.tokens ≡ tokens) }
{
    if cut {
        return show_by_bounds(alloc, problem, loads, finish);
    }
    Ok(ShownBefore {
        below: finish,
        tokens,
    })
}

// What the bounds of a problem show, up to a finish, in ns.
fn show_by_bounds(
    alloc: Global,
    problem: &Problem,
    loads: &Loads,
    finish: u64,
) -> Result<ShownBefore, AllocError>
    requires { AreLoads problem.now loads.now.of.items }
    ensures { IfOk result (IsShownBefore problem.now finish) }
{
    let sought = greatest_bound(alloc, problem, loads, finish)?;
    let mut tokens = Vec::new(alloc);
    tokens.push(sought.closing.token)?;
    Ok(ShownBefore {
        below: sought.below,
        tokens,
    })
}

// The plan by the best schedule, with what no schedule ends before.
fn best_plan(alloc: Global, problem: &Problem, gap: &Gap) -> Result<Plan, AllocError>
    requires limits { InLimits problem.now.problem }
    requires run { IsRunOf problem.now gap.now.best }
    requires small { gap.now.best.finish < 2 ^ 63 }
    requires shown { IsShownBefore problem.now gap.now.best.finish gap.now.shown }
    ensures plan { IfOk result (IsWithin problem.now) }
    ensures finish { IfOk result (λ plan. plan.finish ≡ gap.now.best.finish) }
    ensures below { IfOk result (λ plan. plan.below ≡ gap.now.shown.below) }
    ensures counted { IfOk result (λ plan. HasNodesIn problem.now.problem plan.certificate (nodes_in gap.now.shown.tokens.items)) }
    ensures opened { IfOk result (λ plan. plan.opened ≡ gap.now.opened) }
{
    let (best, shown) = (&gap.best, &gap.shown);
    let schedule = schedule_of(alloc, problem, best.steps.as_slice());
    let text = text_of(alloc, problem.rules().strict, shown.tokens.as_slice())?;
    Ok(Plan {
        schedule,
        finish: best.finish,
        below: shown.below,
        certificate: Certificate::Text(text),
        opened: gap.opened,
    })
}
