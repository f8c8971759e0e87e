//! What is left of a batch's plan, and the replies so far.

ghost use Rattle.std.specs.Prelude.{◌≡◌, ◌++◌, true, option_to_list, IfOk, IfErr, IfSome, IfNone};
ghost use Rattle.onfi_request.specs.declared.want.Want.{Want as AWant};
ghost use Rattle.onfi_core.specs.declared.setup.Setup.{Setup as ASetup};
ghost use Rattle.onfi_flight.specs.Flight.{member_of};
ghost use Rattle.onfi_core.specs.Dues.{IsDue, IsRan, after_due, replies_of};
ghost use Rattle.onfi_core.specs.Kept.{IsSound};
ghost use Rattle.onfi_core.specs.State.{item_at};
ghost use Rattle.onfi_core.specs.Steps.{none_left};
ghost use Rattle.onfi_batch.specs.Course.{state_of, opening, AfterPhaseFault, IsFaultOf, IsDriven, GoesOn};

use crate::fault::{BatchFault, fault_of};
use onfi_addr::Geometry;
use onfi_chip::Chip;
use onfi_flight::{Due, Flight, Next, wants_of};
use onfi_lun::{Lanes, PhaseResult, Target};
use onfi_problem::Problem;
use onfi_request::{Basis, Item, Reply};
use onfi_schedule::{Schedule, no_starts};
use std::alloc::{AllocError, Global};

/// What is left of a plan of all items, and the replies so far: to contracts a half that has planned them at once.
#[derive(Drop)]
pub(crate) struct Course {
    pub items: Vec<Item>,
    pub flight: Flight,
    pub replies: Vec<Reply>,
}

impl Course {
    /// A schedule of the items of which nothing is done, on the LUNs of the device, on which nothing runs.
    ///
    /// # Errors
    /// Where memory was refused.
    pub(crate) fn of(
        alloc: Global,
        geometry: &Geometry,
        problem: &Problem,
        schedule: &Schedule,
        items: Vec<Item>,
    ) -> Result<Course, AllocError>
        ensures { IfOk result (λ course. state_of course ≡ opening geometry.now.lun_count problem.now.problem schedule.now items.items) }
    {
        let replies = Vec::with_capacity(alloc, items.len())?;
        let (timing, rules) = (*problem.timing(), problem.rules());
        let lun_count = geometry.lun_count;
        let mut flight = Flight::idle(alloc, timing, rules, problem.bus_free(), lun_count);
        let left = Schedule::new(no_starts(usize::from(lun_count)), schedule.copy_groups());
        flight.replan(wants_of(problem), left);
        Ok(Course {
            items,
            flight,
            replies,
        })
    }

    /// The undone phase of least start; none where no phase is left.
    pub(crate) fn due(&self) -> Option<Due>
        requires sound { (s : ASetup) × IsSound s (state_of self.now) }
        ensures due { IfSome result (IsDue (state_of self.now)) }
        ensures none { IfNone result (none_left (state_of self.now) ≡ true) }
    {
        match self.flight.due() {
            Next::Due(due) => Some(due),
            Next::Done => None,
            Next::Illegal => unreachable!(),
        }
    }

    /// Runs the due phase on its LUN, and keeps the reply of a post.
    pub(crate) fn run<C: Chip>(
        &mut self,
        alloc: Global,
        chip: &mut C,
        target: &Target,
        lanes: &mut Lanes,
        due: Due,
    ) -> Result<(), BatchFault>
        requires driven { IsDriven target.now self.old lanes.old (C.state chip.old) }
        requires due { IsDue (state_of self.old) due }
        ensures ran { IfOk result (λ _. GoesOn (state_of self.old) (C.state chip.old) due (state_of self.new) (C.state chip.new)) }
        ensures driven { IfOk result (λ _. IsDriven target.now self.new lanes.new (C.state chip.new)) }
        ensures err { IfErr result (λ fault. AfterPhaseFault (state_of self.old) fault (C.state chip.old) (C.state chip.new)) }
        ensures told { IfErr result (IsFaultOf (state_of self.old)) }
    {
        let lun = due.lun;
        let (_, item) = self.member(&due);
        match lanes.run_due(alloc, chip, target, &due, item) {
            Ok(ran) => match self.done(&due, ran, &*chip) {
                Ok(()) => Ok(()),
                Err(_) => Err(BatchFault::Memory),
            },
            Err(fault) => Err(fault_of(fault, lun)),
        }
    }

    // The member that the due phase is of: its place among the items, and its item.
    fn member<'a>(&'a self, due: &Due) -> (u64, &'a Item)
        requires sound { (s : ASetup) × IsSound s (state_of self.now) }
        requires due { IsDue (state_of self.now) due.now }
        ensures { (m : AWant) × (member_of due.now.group due.now.phase ≡ Some m) × (result.0 ≡ m.id) × (result.1.now ≡ item_at self.now.items.items m.id) }
    {
        let place = due.member().id;
        (place, &self.items[place as usize])
    }

    // The due phase is done, and the chip gave `ran` at it.
    fn done<C: Chip>(&mut self, due: &Due, ran: PhaseResult, chip: &C) -> Result<(), AllocError>
        requires sound { (s : ASetup) × IsSound s (state_of self.old) }
        requires due { IsDue (state_of self.old) due.now }
        requires ran { IsRan due.now ran }
        ensures { IfOk result (λ _. state_of self.new ≡ after_due (state_of self.old) due.now (replies_of self.old.items.items (C.state chip.now).faults due.now ran)) }
    {
        let reply = self.reply_of(due, ran, chip);
        hold(&mut self.replies, reply)?;
        self.flight.done(due);
        Ok(())
    }

    // The reply that the phase makes, if it is a post.
    fn reply_of<C: Chip>(&self, due: &Due, ran: PhaseResult, chip: &C) -> Option<Reply>
        requires sound { (s : ASetup) × IsSound s (state_of self.now) }
        requires due { IsDue (state_of self.now) due.now }
        requires ran { IsRan due.now ran }
        ensures { option_to_list result ≡ replies_of self.now.items.items (C.state chip.now).faults due.now ran }
    {
        let PhaseResult::Post(answer) = ran else {
            return None;
        };
        let (place, item) = self.member(due);
        Some(Reply {
            host: item.host,
            serial: item.serial,
            place,
            answer,
            basis: Basis::of(&self.items, chip),
        })
    }
}

// A reply more at the end, if there is one.
fn hold(replies: &mut Vec<Reply>, reply: Option<Reply>) -> Result<(), AllocError>
    ensures { IfOk result (λ _. replies.new.items ≡ replies.old.items ++ option_to_list reply) }
{
    if let Some(reply) = reply {
        replies.push(reply)?;
    }
    Ok(())
}
