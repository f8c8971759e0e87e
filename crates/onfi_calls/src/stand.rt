//! From what a caller says to a problem with a schedule of it.
ghost use Rattle.std.specs.Prelude.{◌≡◌, false, true, IfOk, IfErr};
ghost use Rattle.onfi_calls.specs.Stand.{IsNoSchedule, IsScheduleSaid};
ghost use Rattle.onfi_calls.specs.ReadSchedule.{is_bad_schedule, schedule_of};
ghost use Rattle.onfi_calls.specs.declared.status.Status.TheVariants.{BadSchedule};

use crate::channel::{PlainChannel, PlainWant};
use crate::problem::read_problem;
use crate::read_schedule::{is_bad_schedule, schedule_of};
use crate::schedule::PlainSchedule;
use crate::status::Status;
use onfi_problem::Problem;
use onfi_schedule::Schedule;
use std::alloc::Global;

/// A problem, and a schedule of it.
#[derive(Drop)]
pub struct Stand {
    pub problem: Problem,
    pub schedule: Schedule,
}

/// A problem, and the schedule that is said of it.
fn with_schedule(alloc: Global, problem: Problem, schedule: &PlainSchedule) -> Result<Stand, Status>
    requires { problem.all ≡ problem.problem.wants }
    ensures same { IfOk result (λ t. t.problem ≡ problem) }
    ensures good { IfOk result (λ t. (is_bad_schedule schedule.now ≡ false) × (t.schedule ≡ schedule_of problem.problem.wants schedule.now)) }
    ensures bad { IfErr result (λ status. (is_bad_schedule schedule.now ≡ true) × (status ≡ BadSchedule)) }
{
    if is_bad_schedule(schedule) {
        return Err(Status::BadSchedule);
    }
    let schedule = schedule_of(alloc, problem.wants(), schedule);
    Ok(Stand { problem, schedule })
}

/// The problem that a caller says, and the schedule of it.
pub fn read_stand(
    alloc: Global,
    channel: &PlainChannel,
    wants: &[PlainWant],
    schedule: &PlainSchedule,
) -> Result<Stand, Status>
    ensures said { IfOk result (λ t. IsScheduleSaid channel.now wants.now schedule.now t.problem.problem t.schedule) }
    ensures begun { IfOk result (λ t. t.problem.all ≡ t.problem.problem.wants) }
    ensures none { IfErr result (IsNoSchedule channel.now wants.now schedule.now) }
{
    match read_problem(alloc, channel, wants) {
        Ok(problem) => with_schedule(alloc, problem, schedule),
        Err(status) => Err(status),
    }
}
