//! A batch: a whole schedule driven on a chip.

ghost use Rattle.std.specs.Prelude.{◌≡◌, ℕ, ◌≤◌, length, IfOk, IfErr};
ghost use Rattle.std.specs.List.{AllByRecursion as Each};
ghost use Rattle.onfi_die.specs.Shapes.{device_of};
ghost use Rattle.onfi_die.specs.Rightful.{AreRightful};
ghost use Rattle.onfi_problem.specs.Problem.{IsProblem};
ghost use Rattle.onfi_schedule.specs.Schedule.{Legal};
ghost use Rattle.onfi_batch.specs.Batch.{IsOpened, IsBatchOf, EachReplied, HoldsItems, RestsOn, AfterBatchFault};
ghost use Rattle.onfi_batch.specs.Order.{AreInPostOrder, TellsStatus};

use crate::course::Course;
use crate::fault::BatchFault;
use onfi_addr::Geometry;
use onfi_chip::Chip;
use onfi_lun::{Lanes, Target};
use onfi_problem::Problem;
use onfi_request::{Item, Reply};
use onfi_schedule::Schedule;
use std::alloc::Global;

/// Drives a legal schedule of the items on a chip as it opened, each phase at its start, and answers one reply for each
/// item, in order of post start, which rises; the place of a reply is its item's position, and it rests on the items and
/// the chip's faults. The chip's blocks are then as the items leave them.
///
/// The problem has no running group, and its want i is item i, which the device takes.
///
/// # Errors
/// `Bus`, or `NotReady` with the LUN whose status said so, one on which the schedule has a program or an erase; each only
/// where the chip's count of that fault rose, and nothing more is then known of the chip. `Bus` too where the schedule puts
/// out some sectors of a page, and the chip has none. `Memory` where a growth was refused. In these two cases calls may have
/// been made, and the chip is as they left it.
pub fn run_batch<C: Chip>(
    alloc: Global,
    chip: &mut C,
    geometry: &Geometry,
    problem: &Problem,
    schedule: &Schedule,
    items: Vec<Item>,
) -> Result<Vec<Reply>, BatchFault>
    requires opened { IsOpened geometry.now problem.now.problem.timing (C.state chip.old) }
    requires batch { IsBatchOf geometry.now items.items problem.now.problem }
    requires legal { Legal problem.now.problem schedule.now }
    ensures rightful { IfOk result (λ replies. AreRightful (device_of geometry.now (C.state chip.old).faults) items.items replies.items) }
    ensures each { IfOk result (λ replies. EachReplied items.items replies.items) }
    ensures order { IfOk result (λ replies. AreInPostOrder schedule.now replies.items) }
    ensures blocks { IfOk result (λ _. HoldsItems (device_of geometry.now (C.state chip.old).faults) items.items (C.state chip.new)) }
    ensures basis { IfOk result (λ replies. Each (RestsOn items.items (C.state chip.old).faults) replies.items) }
    ensures fault { IfErr result (λ fault. AfterBatchFault schedule.now fault (C.state chip.old) (C.state chip.new)) }
    ensures told { IfErr result (λ fault. (start : ℕ) × TellsStatus schedule.now start fault) }
{
    problem_is_one(problem);
    let target = Target {
        geometry: *geometry,
        timing: *problem.timing(),
    };
    let Ok(mut course) = Course::of(alloc, geometry, problem, schedule, items) else {
        return Err(BatchFault::Memory);
    };
    let Ok(mut lanes) = Lanes::open(alloc, geometry.lun_count) else {
        return Err(BatchFault::Memory);
    };
    while let Some(due) = course.due() {
        course.run(alloc, chip, &target, &mut lanes, due)?;
    }
    Ok(course.replies)
}

// A problem is what its definition says.
fn problem_is_one(problem: &Problem)
    ensures problem { IsProblem problem.now.problem }
    ensures few { length problem.now.problem.wants ≤ 8 }
{
    problem.in_limits();
}
