//! Planning by several workers.

ghost use Rattle.std.specs.Prelude.{◌≡◌, ℕ, ◌≤◌, IfOk, IfErr};
ghost use Rattle.onfi_schedule.specs.Schedule.{Optimal, finish};
ghost use Rattle.onfi_check.specs.Tree.{AcceptsTokens};
ghost use Rattle.onfi_check.specs.Nodes.{IsSplitOver};
ghost use Rattle.onfi_planner.specs.Planning.{AreRising, OpensPartsWithin};

use crate::branches::write_parts;
use crate::fault::PlanFault;
use crate::gate::PartGate;
use crate::parts::search_parts;
use crate::planned::Planned;
use crate::planning::found_plan;
use crate::root::root_of;
use onfi_problem::Problem;
use std::alloc::Global;
use std::thread::Threads;

/// What [`plan`](crate::plan) promises, by `workers` threads, 1 to 8: a part is what stands below a move of the root,
/// and is searched from the first schedule on, with `limit` nodes, 1 to 1,048,576, of its own.
///
/// Parts are dealt to the workers in turn, and `gate` is called for each before it is searched. The plan is the same for
/// any number of workers. No clause says these three: tests do. Nor does one say how many nodes were opened before
/// `Memory`.
///
/// # Errors
/// `Over` with `limit` where a part opened `limit` nodes and has more; else with how many nodes the parts opened
/// together, where these are more than 1,048,575. Where parts refuse, the first of them is reported. `Memory` where memory
/// was refused.
pub fn plan_split<R: Threads + Sync, G: PartGate + Sync>(
    rt: &R,
    alloc: Global,
    problem: &Problem,
    limit: u32,
    workers: usize,
    gate: &G,
) -> Result<Planned, PlanFault>
    requires some { 1 ≤ limit }
    requires few { limit ≤ 1048576 }
    requires some_workers { 1 ≤ workers }
    requires few_workers { workers ≤ 8 }
    ensures optimal { IfOk result (λ plan. Optimal problem.now.problem plan.schedule) }
    ensures finish { IfOk result (λ plan. finish problem.now.problem plan.schedule ≡ plan.finish) }
    ensures rising { IfOk result (λ plan. AreRising plan.schedule.groups) }
    ensures cert { IfOk result (λ plan. AcceptsTokens plan.cert.items problem.now.problem plan.finish) }
    ensures counted { IfOk result (λ plan. OpensPartsWithin problem.now.problem plan.finish limit) }
    ensures over { IfErr result (λ fault. (opened : ℕ) → fault ≡ PlanFault.Over opened → IsSplitOver problem.now.problem limit opened) }
{
    let mut root = root_of(alloc, problem)?;
    search_parts(rt, alloc, &mut root, limit, workers, gate)?;
    let cert = write_parts(rt, alloc, &root, workers)?;
    Ok(found_plan(alloc, problem, &root.best, cert))
}
