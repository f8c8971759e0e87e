ghost use Rattle.std.specs.Prelude.{◌≤◌};

use crate::ended::Ended;
use crate::sample::{problem, running, want};
use onfi_check::{CertFault, TextFault};
use onfi_known_check::{KnownFault, check_known_text};
use onfi_known_plan::plan_within as plan_best;
use onfi_plan::{Certificate, Limit, Plan};
use onfi_planner::{NoGate, PlanFault, Planned, plan, plan_split};
use onfi_problem::{LunState, Problem};
use onfi_samples::sample_timing;
use onfi_schedule::Schedule;
use onfi_timing::{Kind, Spans, Timing};
use std::alloc::Global;
use std::thread::Threads;

fn say_groups(rt: &impl Print, schedule: &Schedule) -> Result<(), Ended> {
    for group in schedule.groups() {
        println!(rt; "group {:?}", group.starts().as_slice())?;
    }
    Ok(())
}

fn say_plan(rt: &impl Print, planned: &Planned) -> Result<(), Ended> {
    println!(rt; "finish {}", planned.finish)?;
    for token in planned.cert.as_slice() {
        println!(rt; "{token:?}")?;
    }
    say_groups(rt, &planned.schedule)
}

/// Plans with a search of at most that many nodes; once more where memory was refused.
fn plan_within(rt: &impl Print, alloc: Global, problem: &Problem, limit: u32) -> Result<(), Ended>
    requires some { 1 ≤ limit }
    requires few { limit ≤ 1048576 }
{
    for _try in 0..2u8 {
        match plan(alloc, problem, limit) {
            Ok(planned) => return say_plan(rt, &planned),
            Err(PlanFault::Over { opened }) => {
                println!(rt; "over {opened}")?;
                return Ok(());
            }
            Err(PlanFault::Memory) => println!(rt; "memory")?,
        }
    }
    Err(Ended::Memory)
}

/// The same by two workers.
fn split_within<R: Print + Threads + Sync>(
    rt: &R,
    alloc: Global,
    problem: &Problem,
    limit: u32,
) -> Result<(), Ended>
    requires some { 1 ≤ limit }
    requires few { limit ≤ 1048576 }
{
    for _try in 0..2u8 {
        match plan_split(rt, alloc, problem, limit, 2, &NoGate) {
            Ok(planned) => return say_plan(rt, &planned),
            Err(PlanFault::Over { opened }) => {
                println!(rt; "over {opened}")?;
                return Ok(());
            }
            Err(PlanFault::Memory) => println!(rt; "memory")?,
        }
    }
    Err(Ended::Memory)
}

/// Judges a plan whose certificate remembers states; once more where memory was refused.
fn judge_known(
    rt: &impl Print,
    alloc: Global,
    problem: &Problem,
    plan: &Plan,
) -> Result<(), Ended> {
    let Certificate::Text(text) = &plan.certificate else {
        return Err(Ended::NoTrial);
    };
    let text = text.as_slice();
    for _try in 0..2u8 {
        match check_known_text(alloc, problem, &plan.schedule, text) {
            Ok(finish) => {
                println!(rt; "accepted {finish}")?;
                return Ok(());
            }
            Err(TextFault::Cert(KnownFault::Cert(CertFault::Memory))) => println!(rt; "memory")?,
            Err(fault) => {
                println!(rt; "{fault}")?;
                return Ok(());
            }
        }
    }
    Err(Ended::Memory)
}

/// Plans with searches that remember states, and judges the plan; once more where memory was refused.
fn recall(rt: &impl Print, alloc: Global, problem: &Problem) -> Result<(), Ended> {
    for _try in 0..2u8 {
        match plan_best(alloc, problem, Limit::of(1_048_576).unwrap()) {
            Ok(plan) => {
                println!(rt; "finish {}", plan.finish)?;
                say_groups(rt, &plan.schedule)?;
                return judge_known(rt, alloc, problem, &plan);
            }
            Err(_) => println!(rt; "memory")?,
        }
    }
    Err(Ended::Memory)
}

/// The sample device with grouped reads that wait longer between their commands than the array takes.
fn long_gap() -> Result<Timing, Ended> {
    let timing = sample_timing();
    let Ok(read) = Spans::new(140, 30_100, 25_100, 11_000) else {
        return Err(Ended::NoTrial);
    };
    Ok(Timing::new(read, timing.spans(Kind::Program), timing.spans(Kind::Erase)))
}

/// Two reads of one LUN that could be grouped and are better apart.
fn reads_apart(alloc: Global) -> Result<Problem, Ended> {
    let luns = [LunState::Free { since: 0 }, LunState::Free { since: 0 }];
    let wants = [want(0, Kind::Read, 0, 0), want(1, Kind::Read, 0, 1)];
    problem(alloc, long_gap()?, &luns, &wants)
}

/// A data output of LUN 0, a status of LUN 1 that is ready later, and an erase after it.
fn erase_last(alloc: Global) -> Result<Problem, Ended> {
    let luns = [
        running(alloc, want(0, Kind::Read, 0, 0), 0),
        running(alloc, want(0, Kind::Erase, 1, 0), 50),
    ];
    let wants = [want(0, Kind::Erase, 1, 1)];
    problem(alloc, sample_timing(), &luns, &wants)
}

/// Plans of two reads, one node too few first.
pub(crate) fn plan_apart(rt: &impl Print, alloc: Global) -> Result<(), Ended> {
    let problem = reads_apart(alloc)?;
    plan_within(rt, alloc, &problem, 6)?;
    plan_within(rt, alloc, &problem, 7)
}

/// Plans beside running groups, one node too few first.
pub(crate) fn plan_running(rt: &impl Print, alloc: Global) -> Result<(), Ended> {
    let problem = erase_last(alloc)?;
    plan_within(rt, alloc, &problem, 6)?;
    plan_within(rt, alloc, &problem, 7)
}

/// Plans of both by two workers, of the first with one node too few for its parts first.
pub(crate) fn plan_in_parts<R: Print + Threads + Sync>(rt: &R, alloc: Global) -> Result<(), Ended> {
    let (apart, behind) = (reads_apart(alloc)?, erase_last(alloc)?);
    split_within(rt, alloc, &apart, 3)?;
    split_within(rt, alloc, &apart, 4)?;
    split_within(rt, alloc, &behind, 1_048_576)
}

/// Plans of both with searches that remember states.
pub(crate) fn plan_remembering(rt: &impl Print, alloc: Global) -> Result<(), Ended> {
    let (apart, behind) = (reads_apart(alloc)?, erase_last(alloc)?);
    recall(rt, alloc, &apart)?;
    recall(rt, alloc, &behind)
}
