//! Plans: one is found, made better and printed.
ghost use Rattle.std.specs.Prelude.{◌≡◌, ◌≤◌, ℕ, List, IfOk, IfErr};
ghost use Rattle.onfi_schedule.specs.Schedule.{Legal, finish};
ghost use Rattle.onfi_schedule.specs.Trace.{IsTrace};
ghost use Rattle.onfi_plan.specs.Certificate.{IsSpelled};
ghost use Rattle.onfi_script.specs.Answer.{IsFound, IsPlan, OneTells, PartsTell, Prints, TellsOver};
ghost use Rattle.onfi_script.specs.AnswerOf.{answer_of};
ghost use Rattle.onfi_script.specs.Limit.{IsLimit};

use crate::command::{Output, PlanOptions};
use crate::text::{Answer, plan_text};
use onfi_plan::{Limit, Plan, PlanFault, Planner, certificate_text};
use onfi_planner::{NoGate, plan_split};
use onfi_planners::{By, Nodes, Weights, make_better};
use onfi_problem::Problem;
use onfi_schedule::{Schedule, trace, trace_requests};
use std::alloc::{AllocError, Global};
use std::thread::Threads;

/// The plan that these options ask for.
///
/// # Errors
/// `Over` where the plain search opened as many nodes as it may and isn't over; `Memory` where memory was refused.
pub fn plan_by(
    alloc: Global,
    problem: &Problem,
    weights: &Weights,
    options: PlanOptions,
) -> Result<Plan, PlanFault>
    requires limit { IsLimit options.limit }
    requires begun { problem.now.all ≡ problem.now.problem.wants }
    ensures plan { IfOk result (IsPlan options weights.now problem.now) }
    ensures over { IfErr result (λ fault. (opened : ℕ) → fault ≡ PlanFault.Over opened → TellsOver OneTells options.by options.limit problem.now.problem opened) }
{
    let limit = Limit::of(options.limit).unwrap();
    let plan = options.by.plan(alloc, problem, limit)?;
    let better = improve_plan(alloc, problem, weights, options, plan)?;
    Ok(better)
}

/// The plan that these options ask for, where the plain search has that many workers.
///
/// # Errors
/// `Over` as [`plan_split`] reports it; `Memory` where memory was refused.
pub fn plan_by_workers<R: Threads + Sync>(
    rt: &R,
    alloc: Global,
    problem: &Problem,
    weights: &Weights,
    options: PlanOptions,
    workers: usize,
) -> Result<Plan, PlanFault>
    requires limit { IsLimit options.limit }
    requires some_workers { 1 ≤ workers }
    requires few_workers { workers ≤ 8 }
    requires begun { problem.now.all ≡ problem.now.problem.wants }
    ensures plan { IfOk result (IsPlan options weights.now problem.now) }
    ensures over { IfErr result (λ fault. (opened : ℕ) → fault ≡ PlanFault.Over opened → TellsOver PartsTell options.by options.limit problem.now.problem opened) }
{
    match options.by {
        By::Plain => {
            let planned = plan_split(rt, alloc, problem, options.limit, workers, &NoGate)?;
            let plan = Plan::of(planned, 0);
            let better = improve_plan(alloc, problem, weights, options, plan)?;
            Ok(better)
        }
        By::Within => plan_by(alloc, problem, weights, options),
        By::Rule => plan_by(alloc, problem, weights, options),
    }
}

/// A plan that was found by the options' way, made better where they say so.
fn improve_plan(
    alloc: Global,
    problem: &Problem,
    weights: &Weights,
    options: PlanOptions,
    plan: Plan,
) -> Result<Plan, AllocError>
    requires { IsFound options.by options.limit problem.now plan }
    ensures { IfOk result (IsPlan options weights.now problem.now) }
{
    if options.early {
        return make_better(alloc, problem, plan, weights, Nodes::usual());
    }
    Ok(plan)
}

/// The trace of a legal schedule; each line names its request where that is asked for.
fn trace_of(
    alloc: Global,
    problem: &Problem,
    schedule: &Schedule,
    requests: bool,
) -> Result<Vec<u8>, AllocError>
    requires { Legal problem.now.problem schedule.now }
    ensures { IfOk result (λ text. IsTrace requests problem.now.problem schedule.now text.items) }
{
    if requests {
        trace_requests(alloc, problem, schedule)
    } else {
        trace(alloc, problem, schedule)
    }
}

/// A plan as it is printed.
pub fn print_plan(
    alloc: Global,
    problem: &Problem,
    plan: Plan,
    output: Output,
) -> Result<Answer, AllocError>
    requires legal { Legal problem.now.problem plan.schedule }
    requires finish { finish problem.now.problem plan.schedule ≡ plan.finish }
    ensures { IfOk result (λ a. (text : List ℕ) × IsSpelled problem.now.problem.rules.strict plan.certificate text
        × Prints output problem.now.problem plan.schedule plan.below text (answer_of a)) }
{
    let Plan {
        schedule,
        finish,
        below,
        certificate,
        ..
    } = plan;
    let certificate = certificate_text(alloc, problem.rules().strict, certificate)?;
    let text = match output {
        Output::Plan => plan_text(alloc, &schedule, finish, below, certificate.as_slice())?,
        Output::Trace { requests } => trace_of(alloc, problem, &schedule, requests)?,
    };
    Ok(Answer::of(text, 0))
}
