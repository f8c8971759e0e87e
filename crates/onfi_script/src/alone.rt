//! The answer about a schedule alone, without a certificate.
ghost use Rattle.std.specs.Prelude.{◌≡◌, ◌++◌, codes, IfOk};
ghost use Rattle.onfi_script.specs.Answer.{AnswersAlone, AnswersLegal, TellsLegal};
ghost use Rattle.onfi_script.specs.AnswerOf.{answer_of};

use crate::checking::refuse_line;
use crate::plan_within::{PlanWithin, read_plan_within};
use crate::text::{Answer, legal_until, refuse};
use crate::why::Why;
use onfi_problem::Problem;
use onfi_schedule::{Schedule, find_breach, finish};
use std::alloc::{AllocError, Global};

/// The text, with a line after it that closes its schedule where no certificate does.
fn close_schedule(alloc: Global, text: &[u8]) -> Result<Vec<u8>, AllocError>
    ensures { IfOk result (λ v. v.items ≡ text.now ++ codes "ONFICERT\n") }
{
    let mut closed = Vec::new(alloc);
    closed.extend_from_slice(text)?;
    closed.extend_from_slice(b"ONFICERT\n")?;
    Ok(closed)
}

/// Whether a schedule is legal, and when it ends.
fn report_schedule(
    alloc: Global,
    problem: &Problem,
    schedule: &Schedule,
) -> Result<Answer, AllocError>
    ensures { IfOk result (λ a. TellsLegal problem.now.problem schedule.now (answer_of a)) }
{
    let breach = find_breach(problem, schedule);
    if breach.is_some() {
        return refuse(alloc, Why::Illegal(breach));
    }
    legal_until(alloc, finish(problem, schedule))
}

/// The answer to the schedule of a plan text.
fn judge_text(alloc: Global, problem: &Problem, text: &[u8]) -> Result<Answer, AllocError>
    requires begun { problem.now.all ≡ problem.now.problem.wants }
    ensures { IfOk result (λ a. AnswersAlone problem.now.problem text.now (answer_of a)) }
{
    match read_plan_within(alloc, problem.wants(), text) {
        Ok(PlanWithin { plan, .. }) => {
            let schedule = plan.schedule(problem.lun_count());
            report_schedule(alloc, problem, &schedule)
        }
        Err(number) => refuse_line(alloc, number),
    }
}

/// The answer to the schedule of a plan text, in which a certificate may be missing; what a line `below` claims isn't looked
/// at.
pub fn judge_alone(alloc: Global, problem: &Problem, text: &[u8]) -> Result<Answer, AllocError>
    requires begun { problem.now.all ≡ problem.now.problem.wants }
    ensures { IfOk result (λ a. AnswersLegal problem.now.problem text.now (answer_of a)) }
{
    let closed = close_schedule(alloc, text)?;
    judge_text(alloc, problem, closed.as_slice())
}
