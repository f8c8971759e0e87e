//! Which schedules are legal, and which condition another one breaks first.

ghost use Rattle.std.specs.Prelude.{◌≡◌, ◌≤◌, ◌↔◌, IsTrue, IsNone, IfSome, length};
ghost use Rattle.std.specs.List.{AllByRecursion as Each};
ghost use Rattle.onfi_problem.specs.Problem.{IsProblem};
ghost use Rattle.onfi_schedule.specs.Schedule.{Legal};
ghost use Rattle.onfi_schedule.specs.Conditions.{Names, HasShape, KeepsBus, KeepsWaits, KeepsTurns, states_of};
ghost use Rattle.onfi_schedule.specs.Breaks.{Breaks, Holds, is_a_group, keeps_block_order};
ghost use Rattle.onfi_schedule.specs.Tells.{Tells};

use crate::breach::Breach;
use crate::schedule::Schedule;
use crate::{block_order, bus, groups, shape, since, slots, turns, waits};
use arrayvec::ArrayVec;
use onfi_group::Group;
use onfi_problem::{Lun, Problem};
use onfi_request::Want;

/// Whether a schedule of the problem is legal. It takes no memory.
///
/// A schedule is legal where each want is in exactly one group and each phase that is left has one start, and:
/// no start is before the bus is free; no two phases overlap; each phase waits for the one before it in its group, and
/// the next phase of a running group until it is ready; groups of one LUN take turns, the running one first; a LUN that
/// is free begins when it may; of two wants on one block, the group of the earlier has ended when that of the later
/// starts; and each group is one by the rules (ONFI 4.2, multi-plane operations).
pub fn legal(problem: &Problem, schedule: &Schedule) -> bool
    ensures { IsTrue result ↔ Legal problem.now.problem schedule.now }
{
    find_breach(problem, schedule).is_none()
}

/// The first condition that a schedule of the problem breaks; none where it is legal. It takes no memory.
///
/// The conditions are looked at in the order of the kinds of [`Breach`], each from the first LUN, group or request on.
pub fn find_breach(problem: &Problem, schedule: &Schedule) -> Option<Breach>
    ensures legal { IsNone result ↔ Legal problem.now.problem schedule.now }
    ensures broken { IfSome result (Breaks problem.now.problem schedule.now) }
    ensures told { IfSome result (Tells problem.now.problem schedule.now) }
{
    let _bus_free = problem.bus_free();
    let breach = of_shape(problem, schedule);
    if breach.is_some() {
        return breach;
    }
    let breach = of_groups(problem, schedule);
    if breach.is_some() {
        return breach;
    }
    let breach = of_bus(problem, schedule);
    if breach.is_some() {
        return breach;
    }
    let breach = of_waits(problem, schedule);
    if breach.is_some() {
        return breach;
    }
    let breach = of_turns(problem, schedule);
    if breach.is_some() {
        return breach;
    }
    of_block_order(problem, schedule)
}

// Each request in exactly one group, each phase with one start.
fn of_shape(problem: &Problem, schedule: &Schedule) -> Option<Breach>
    requires { IsProblem problem.now.problem }
    ensures none { IsNone result ↔ HasShape problem.now.problem.luns problem.now.problem.wants schedule.now }
    ensures broken { IfSome result (Breaks problem.now.problem schedule.now) }
    ensures told { IfSome result (Tells problem.now.problem schedule.now) }
{
    let (luns, table) = luns_and_groups(problem);
    let groups = schedule.groups();
    let breach = shape::lun_count(problem.lun_count(), schedule.rest());
    if breach.is_some() {
        return breach;
    }
    let breach = shape::rest_count(table, luns, schedule.rest());
    if breach.is_some() {
        return breach;
    }
    let breach = shape::start_count(groups);
    if breach.is_some() {
        return breach;
    }
    let wants = waiting_wants(problem);
    let breach = shape::find_unknown(wants.as_slice(), groups);
    if breach.is_some() {
        return breach;
    }
    shape::missing_or_repeated(groups, wants.as_slice())
}

// Groups are groups by the rules.
fn of_groups(problem: &Problem, schedule: &Schedule) -> Option<Breach>
    ensures none { IsNone result ↔ Holds problem.now.problem schedule.now is_a_group }
    ensures broken { IfSome result (Breaks problem.now.problem schedule.now) }
    ensures told { IfSome result (Tells problem.now.problem schedule.now) }
{
    groups::no_group(&problem.rules(), schedule.groups())
}

// The bus is free when a phase starts, and no two phases overlap.
fn of_bus(problem: &Problem, schedule: &Schedule) -> Option<Breach>
    requires shape { HasShape problem.now.problem.luns problem.now.problem.wants schedule.now }
    ensures none { IsNone result ↔ KeepsBus problem.now.problem.timing problem.now.problem.bus_free problem.now.problem.luns schedule.now }
    ensures broken { IfSome result (Breaks problem.now.problem schedule.now) }
    ensures told { IfSome result (Tells problem.now.problem schedule.now) }
{
    let bus_free = problem.bus_free();
    let (luns, table) = luns_and_groups(problem);
    let slots = slots::all_slots(problem.timing(), table, luns, schedule);
    let breach = bus::too_early(bus_free, slots.as_slice());
    if breach.is_some() {
        return breach;
    }
    bus::overlap(slots.as_slice())
}

// Groups keep their waits.
fn of_waits(problem: &Problem, schedule: &Schedule) -> Option<Breach>
    requires problem { IsProblem problem.now.problem }
    requires luns { length schedule.now.rest ≡ length problem.now.problem.luns }
    ensures none { IsNone result ↔ KeepsWaits problem.now.problem.timing problem.now.problem.luns schedule.now }
    ensures broken { IfSome result (Breaks problem.now.problem schedule.now) }
    ensures told { IfSome result (Tells problem.now.problem schedule.now) }
{
    let timing = problem.timing();
    let (luns, table) = luns_and_groups(problem);
    let breach = waits::in_rest(timing, table, luns, schedule.rest());
    if breach.is_some() {
        return breach;
    }
    waits::in_groups(timing, schedule.groups())
}

// The groups of a LUN take turns, the running one first, and a free one begins when it may.
fn of_turns(problem: &Problem, schedule: &Schedule) -> Option<Breach>
    requires problem { IsProblem problem.now.problem }
    requires luns { length schedule.now.rest ≡ length problem.now.problem.luns }
    ensures none { IsNone result ↔ KeepsTurns problem.now.problem.timing problem.now.problem.luns schedule.now }
    ensures broken { IfSome result (Breaks problem.now.problem schedule.now) }
    ensures told { IfSome result (Tells problem.now.problem schedule.now) }
{
    let timing = problem.timing();
    let (luns, table) = luns_and_groups(problem);
    let groups = schedule.groups();
    let breach = turns::running_not_over(timing, table, luns, schedule.rest(), groups);
    if breach.is_some() {
        return breach;
    }
    let breach = turns::lun_taken(timing, groups);
    if breach.is_some() {
        return breach;
    }
    since::lun_not_free(timing, table, luns, groups)
}

// Requests on one block keep their order.
fn of_block_order(problem: &Problem, schedule: &Schedule) -> Option<Breach>
    ensures none { IsNone result ↔ Holds problem.now.problem schedule.now keeps_block_order }
    ensures broken { IfSome result (Breaks problem.now.problem schedule.now) }
    ensures told { IfSome result (Tells problem.now.problem schedule.now) }
{
    let wants = waiting_wants(problem);
    block_order::wrong_order(problem.timing(), schedule.groups(), wants.as_slice())
}

/// The LUNs, and the groups that they name.
pub(crate) fn luns_and_groups(problem: &Problem) -> (&[Lun], &[Group])
    requires { IsProblem problem.now.problem }
    ensures states { states_of result.1.now result.0.now ≡ problem.now.problem.luns }
    ensures few { length result.0.now ≤ 8 }
    ensures named { Each (Names result.1.now) result.0.now }
{
    (problem.luns(), problem.groups())
}

// The wants that wait.
fn waiting_wants(problem: &Problem) -> ArrayVec<Want, 8>
    ensures { result.items ≡ problem.now.problem.wants }
{
    let waiting = problem.waiting();
    let mut wants = ArrayVec::new();
    for (at, want) in problem.wants().iter().enumerate() {
        if waiting[at] {
            wants.push(*want);
        }
    }
    wants
}
