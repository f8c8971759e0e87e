//! When a schedule ends.

ghost use Rattle.std.specs.Prelude.{◌≡◌};
ghost use Rattle.onfi_schedule.specs.Schedule.{Legal, finish};

use crate::schedule::Schedule;
use crate::{finding, slots};
use onfi_problem::Problem;

/// When the last phase of a legal schedule ends, or from when on the bus is free where no phase is left, in ns.
pub fn finish(problem: &Problem, schedule: &Schedule) -> u64
    requires { Legal problem.now.problem schedule.now }
    ensures { result ≡ finish problem.now.problem schedule.now }
{
    let bus_free = problem.bus_free();
    let (luns, table) = finding::luns_and_groups(problem);
    let slots = slots::all_slots(problem.timing(), table, luns, schedule);
    slots::latest(bus_free, slots.as_slice())
}
