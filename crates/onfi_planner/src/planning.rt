ghost use Rattle.std.specs.Prelude.{◌≡◌, ℕ, ◌≤◌, IfOk, IfErr};
ghost use Rattle.onfi_problem.specs.Left.{InLimits};
ghost use Rattle.onfi_schedule.specs.Schedule.{Optimal, finish};
ghost use Rattle.onfi_check.specs.Tree.{AcceptsTokens};
ghost use Rattle.onfi_check.specs.Nodes.{HasMoreNodes, OpensNodes};
ghost use Rattle.onfi_planner.specs.Planning.{AreRising, Found, OpensWithin};

use crate::certificate;
use crate::fault::PlanFault;
use crate::placing::schedule_of;
use crate::planned::{Counted, Planned};
use crate::root::{Root, root_of};
use crate::search::{self, Best, Count, Stop};
use onfi_bound::bus;
use onfi_cert::Token;
use onfi_problem::Problem;
use std::alloc::Global;

/// The legal schedule of a problem that ends first, its groups by rising first start, with the certificate that shows
/// it; the search opens at most `limit` nodes, 1 to 1,048,576.
///
/// # Errors
/// `Over` where `limit` nodes were opened and the tree of the problem has more: its nodes are the paths of moves on
/// which no bound reaches the finish of the first schedule. `Memory` where memory was refused; no clause says how many
/// nodes were opened before.
pub fn plan(alloc: Global, problem: &Problem, limit: u32) -> Result<Planned, PlanFault>
    requires some { 1 ≤ limit }
    requires few { limit ≤ 1048576 }
    ensures optimal { IfOk result (λ plan. Optimal problem.now.problem plan.schedule) }
    ensures finish { IfOk result (λ plan. finish problem.now.problem plan.schedule ≡ plan.finish) }
    ensures rising { IfOk result (λ plan. AreRising plan.schedule.groups) }
    ensures cert { IfOk result (λ plan. AcceptsTokens plan.cert.items problem.now.problem plan.finish) }
    ensures counted { IfOk result (λ plan. OpensWithin problem.now.problem plan.finish limit) }
    ensures over { IfErr result (λ fault. (opened : ℕ) → fault ≡ PlanFault.Over opened → (opened ≡ limit) × HasMoreNodes problem.now.problem limit) }
{
    Ok(plan_counted(alloc, problem, limit)?.planned)
}

/// What [`plan`] does, which also says how many nodes the search opened.
///
/// # Errors
/// Those of [`plan`].
pub fn plan_counted(alloc: Global, problem: &Problem, limit: u32) -> Result<Counted, PlanFault>
    ensures optimal { IfOk result (λ counted. Optimal problem.now.problem counted.planned.schedule) }
    ensures finish { IfOk result (λ counted. finish problem.now.problem counted.planned.schedule ≡ counted.planned.finish) }
    ensures rising { IfOk result (λ counted. AreRising counted.planned.schedule.groups) }
    ensures cert { IfOk result (λ counted. AcceptsTokens counted.planned.cert.items problem.now.problem counted.planned.finish) }
    ensures opened { IfOk result (λ counted. OpensNodes problem.now.problem counted.planned.finish counted.opened) }
    ensures some_opened { IfOk result (λ counted. 1 ≤ counted.opened) }
    ensures within { IfOk result (λ counted. counted.opened ≤ limit) }
    ensures over { IfErr result (λ fault. (opened : ℕ) → fault ≡ PlanFault.Over opened → (opened ≡ limit) × HasMoreNodes problem.now.problem limit) }
{
    let root = root_of(alloc, problem)?;
    let Root {
        problem: mut at,
        loads,
        mut best,
    } = root;
    let mut count = Count { opened: 0, limit };
    let bus_bound = bus(&at);
    match search::search(&mut at, &loads, bus_bound, &mut best, &mut count) {
        Ok(_) => {}
        Err(Stop::Over) => {
            let opened = count.opened;
            return Err(PlanFault::Over { opened });
        }
        Err(Stop::Memory) => return Err(PlanFault::Memory),
    }
    let mut cert = Vec::new(alloc);
    certificate::write(&mut at, &loads, bus_bound, best.finish, &mut cert)?;
    let planned = found_plan(alloc, problem, &best, cert);
    let opened = count.opened;
    Ok(Counted { planned, opened })
}

/// The plan of what a search found, with the certificate that was written for it.
pub fn found_plan(alloc: Global, problem: &Problem, best: &Best, cert: Vec<Token>) -> Planned
    requires limits { InLimits problem.now.problem }
    requires found { Found problem.now best.now }
    requires cert { AcceptsTokens cert.items problem.now.problem best.now.finish }
    ensures optimal { Optimal problem.now.problem result.schedule }
    ensures finish { finish problem.now.problem result.schedule ≡ result.finish }
    ensures rising { AreRising result.schedule.groups }
    ensures accepted { AcceptsTokens result.cert.items problem.now.problem result.finish }
    ensures ends { result.finish ≡ best.now.finish }
{
    let schedule = schedule_of(alloc, problem, best.steps.as_slice());
    Planned {
        schedule,
        finish: best.finish,
        cert,
    }
}
