//! Plan texts are checked.
ghost use Rattle.std.specs.Prelude.{◌≡◌, codes, IfOk};
ghost use Rattle.onfi_schedule.specs.Schedule.{Legal, finish};
ghost use Rattle.onfi_planners.specs.declared.by.By.TheVariants as by;
ghost use Rattle.onfi_script.specs.Answer.{AnswersOptimal, AnswersSchedule, AnswersWithin};
ghost use Rattle.onfi_script.specs.AnswerOf.{answer_of};
ghost use Rattle.onfi_script.specs.Text.{known_text_refused, refused_at as spec_refused_at, refused_by, text_refused};

use crate::plan_text::read_plan;
use crate::plan_within::{PlanWithin, read_plan_within};
use crate::text::{Answer, accept_end, refuse, within};
use crate::why::Why;
use onfi_check::{CertFault, TextFault, check_text};
use onfi_known_check::{KnownFault, KnownTextFault, check_known_within};
use onfi_problem::Problem;
use onfi_schedule::{Schedule, find_breach, finish};
use std::alloc::{AllocError, Global};

/// The answer to a plan text of which that line, counted from 1, is the first wrong one.
pub fn refuse_line(alloc: Global, number: u64) -> Result<Answer, AllocError>
    ensures { IfOk result (λ a. answer_of a ≡ spec_refused_at (codes "plan") number) }
{
    refuse(alloc, Why::Line(number))
}

/// Why the text of a plain certificate refuses its schedule.
fn why_plain(problem: &Problem, schedule: &Schedule, fault: TextFault) -> Why
    ensures { refused_by result ≡ text_refused fault }
{
    match fault {
        TextFault::Cert(CertFault::Illegal) => Why::Illegal(find_breach(problem, schedule)),
        _ => Why::Cert(fault),
    }
}

/// .. that of a certificate which remembers states, where nothing is said to end before `below`, in ns.
fn why_known(
    problem: &Problem,
    schedule: &Schedule,
    below: u64,
    fault: TextFault<KnownFault, KnownTextFault>,
) -> Why
    requires { fault ≡ TextFault.Cert KnownFault.Above → Legal problem.now.problem schedule.now }
    ensures { refused_by result ≡ known_text_refused fault }
{
    match fault {
        TextFault::Cert(KnownFault::Cert(CertFault::Illegal)) => {
            Why::Illegal(find_breach(problem, schedule))
        }
        TextFault::Cert(KnownFault::Above) => Why::Below {
            said: below,
            is: finish(problem, schedule),
        },
        _ => Why::Known(fault),
    }
}

/// The answer to a schedule that is said to end at `ends`, in ns, and the text of its plain certificate.
fn judge_plain(
    alloc: Global,
    problem: &Problem,
    schedule: &Schedule,
    ends: u64,
    certificate: &[u8],
) -> Result<Answer, AllocError>
    ensures { IfOk result (λ a. AnswersSchedule by.Plain problem.now.problem schedule.now ends (finish problem.now.problem schedule.now) certificate.now (answer_of a)) }
{
    match check_text(alloc, problem, schedule, certificate) {
        Ok(finish) if finish == ends => accept_end(alloc, ends),
        Ok(is) => refuse(alloc, Why::Finish { said: ends, is }),
        Err(fault) => refuse(alloc, why_plain(problem, schedule, fault)),
    }
}

/// .. of its certificate, which remembers states, where nothing is said to end before `below`, in ns.
fn judge_within(
    alloc: Global,
    problem: &Problem,
    schedule: &Schedule,
    ends: u64,
    below: u64,
    certificate: &[u8],
) -> Result<Answer, AllocError>
    requires begun { problem.now.all ≡ problem.now.problem.wants }
    ensures { IfOk result (λ a. AnswersSchedule by.Within problem.now.problem schedule.now ends below certificate.now (answer_of a)) }
{
    match check_known_within(alloc, problem, schedule, below, certificate) {
        Ok(is) if is != ends => refuse(alloc, Why::Finish { said: ends, is }),
        Ok(_) if below < ends => within(alloc, ends, below),
        Ok(_) => accept_end(alloc, ends),
        Err(fault) => refuse(alloc, why_known(problem, schedule, below, fault)),
    }
}

/// The answer to a plan text with a plain certificate, which is to show that its schedule is optimal.
pub fn check_optimal(alloc: Global, problem: &Problem, text: &[u8]) -> Result<Answer, AllocError>
    requires begun { problem.now.all ≡ problem.now.problem.wants }
    ensures { IfOk result (λ a. AnswersOptimal problem.now.problem text.now (answer_of a)) }
{
    match read_plan(alloc, problem.wants(), text) {
        Ok((plan, certificate)) => {
            let ends = plan.finish();
            let schedule = plan.schedule(problem.lun_count());
            judge_plain(alloc, problem, &schedule, ends, certificate)
        }
        Err(number) => refuse_line(alloc, number),
    }
}

/// The answer to a plan text whose certificate remembers states, in which a line `below` may stand.
pub fn check_within(alloc: Global, problem: &Problem, text: &[u8]) -> Result<Answer, AllocError>
    requires begun { problem.now.all ≡ problem.now.problem.wants }
    ensures { IfOk result (λ a. AnswersWithin problem.now.problem text.now (answer_of a)) }
{
    match read_plan_within(alloc, problem.wants(), text) {
        Ok(
            PlanWithin {
                plan,
                below,
                certificate,
            },
        ) => {
            let ends = plan.finish();
            let schedule = plan.schedule(problem.lun_count());
            judge_within(alloc, problem, &schedule, ends, below, certificate)
        }
        Err(number) => refuse_line(alloc, number),
    }
}
