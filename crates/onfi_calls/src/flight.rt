//! From what a caller says to what is left of a schedule. No call here asks for memory, and none judges the schedule.
ghost use Rattle.std.specs.Prelude.{◌≡◌, ◌≤◌, false, length, replicate, IfErr, IfOk};
ghost use Rattle.std.specs.List.{list_any};
ghost use Rattle.onfi_problem.specs.Kept.{problem_of as parts_of};
ghost use Rattle.onfi_problem.specs.Faults.{TellsFault};
ghost use Rattle.onfi_problem.specs.declared.lun_state.LunState.TheVariants.{Free};
ghost use Rattle.onfi_calls.specs.Refused.{IsMeasured};
ghost use Rattle.onfi_calls.specs.Flights.{IsFlightSaid, IsNoFlight};
ghost use Rattle.onfi_calls.specs.Problem as spec;

use crate::channel::{PlainChannel, PlainLun, PlainWant};
use crate::problem::{few_wants_of, state_of};
use crate::read_schedule::{is_bad_schedule, schedule_of};
use crate::schedule::PlainSchedule;
use crate::status::Status;
use onfi_flight::Flight;
use onfi_problem::{ProblemFault, find_fault};
use onfi_request::Want;
use std::alloc::Global;

/// Why the problem of a flight, with these wants, is none; none where it is one within its limits.
pub fn fault_of(flight: &Flight, wants: &[Want]) -> Option<ProblemFault>
    ensures { TellsFault (parts_of flight.now.now.timing flight.now.now.rules flight.now.now.bus_free flight.now.now.luns wants.now) result }
{
    find_fault(
        &flight.timing(),
        &flight.rules(),
        flight.bus_free(),
        flight.luns(),
        wants,
    )
}

/// Has the LUNs of a flight do what is given.
fn set_luns(alloc: Global, flight: &mut Flight, plane_bits: u8, luns: &[PlainLun])
    requires bits { plane_bits ≤ 2 }
    requires few { length luns.now ≤ 8 }
    requires idle { flight.old.now.luns ≡ replicate (length luns.now) (Free 0) }
    requires members { list_any spec.has_bad_count luns.now ≡ false }
    ensures timing { flight.new.now.timing ≡ flight.old.now.timing }
    ensures rules { flight.new.now.rules ≡ flight.old.now.rules }
    ensures bus_free { flight.new.now.bus_free ≡ flight.old.now.bus_free }
    ensures luns { flight.new.now.luns ≡ spec.states_of plane_bits luns.now }
{
    for (at, lun) in luns.iter().enumerate() {
        let state = state_of(alloc, plane_bits, lun);
        flight.set_lun(at as u8, state);
    }
}

/// Has an idle flight on as many LUNs be what is left of the schedule that a caller says, of the problem that he says. What
/// it is where that is refused isn't said. A flight goes round by a borrow, as it has some thousand bytes.
pub fn fill(
    alloc: Global,
    flight: &mut Flight,
    channel: &PlainChannel,
    wants: &[PlainWant],
    schedule: &PlainSchedule,
) -> Result<(), Status>
    requires measured { IsMeasured channel.now wants.now flight.old.now.timing }
    requires few { length wants.now ≤ 8 }
    requires rules { spec.AreRules channel.now.rules flight.old.now.rules }
    requires bus_free { flight.old.now.bus_free ≡ channel.now.bus_free }
    requires idle { flight.old.now.luns ≡ replicate channel.now.lun_count (Free 0) }
    ensures said { IfOk result (λ _. IsFlightSaid channel.now wants.now schedule.now flight.new) }
    ensures none { IfErr result (IsNoFlight channel.now wants.now schedule.now) }
{
    let luns = &channel.lun[..channel.lun_count as usize];
    set_luns(alloc, flight, channel.rules.plane_bits, luns);
    let wants = few_wants_of(channel.rules.plane_bits, wants);
    if let Some(fault) = fault_of(flight, wants.as_slice()) {
        return Err(Status::of_problem(fault));
    }
    if is_bad_schedule(schedule) {
        return Err(Status::BadSchedule);
    }
    let left = schedule_of(alloc, wants.as_slice(), schedule);
    flight.replan(wants, left);
    Ok(())
}
