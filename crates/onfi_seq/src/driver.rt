//! A half with its chip and its planner.

ghost use Rattle.std.specs.Prelude.{◌≡◌, ◌⊎◌, ℕ, ◌<◌, ◌≤◌, ◌^◌, false, length, None, Some, IfOk, IfErr, IfSome, IsTrue};
ghost use Rattle.std.specs.List.{filter};
ghost use Rattle.onfi_core.specs.declared.event.Event.TheVariants as event;
ghost use Rattle.onfi_core.specs.Dues.{IsDue};
ghost use Rattle.onfi_core.specs.Kept.{first_half};
ghost use Rattle.onfi_core.specs.Queues.{IsFresh};
ghost use Rattle.onfi_core.specs.Reaching.{Reaches};
ghost use Rattle.onfi_core.specs.Refusals.{planned_outcome};
ghost use Rattle.onfi_core.specs.State.{is_to};
ghost use Rattle.onfi_core.specs.Steps.{IsPromised, Step, accept_refusal, accepting, bus_refusal, unanswered};
ghost use Rattle.onfi_core.specs.View.{IsNext, PlanRefused, WantsItem};
ghost use Rattle.onfi_seq.specs.Driver.{IsAt, Offered, RanTo, RunsBy, channel_in, ran_of};

use crate::offer::Offer;
use crate::ran::Ran;
use onfi_chip::Chip;
use onfi_core::{AcceptFault, Cause, DueRefusal, Half, PhaseStop, PlanRefusal, Setup, run_due};
use onfi_flight::Due;
use onfi_lun::Lanes;
use onfi_plan::Planner;
use onfi_reply::Poster;
use onfi_request::Item;
use std::alloc::{AllocError, Global};
use std::marker::Model;
use std::sync::Wait;

mod passing;

/// A half with its chip, the chip's LUNs in their typed phases, and what plans its batches.
#[derive(Drop)]
pub(crate) struct Driver<C: Chip, P: Planner> {
    planner: P,
    half: Half,
    chip: C,
    lanes: Lanes,
}

impl<C: Chip, P: Planner> Model for Driver<C, P> {
    ghost use Rattle.onfi_core.specs.Steps.{IsPromised};
    ghost use Rattle.onfi_seq.specs.Driver.{DriverView, IsDriven};

    ghost Value = { DriverView C };

    ghost view = { λ d. (record { setup = d.half.setup; half = d.half.state }, d.chip) };

    ghost invariant = { λ d. IsDriven (IsPromised P.exact P.certifies) d.half.setup d.half.lent d.half.state (C.state d.chip) d.lanes };
}

impl<C: Chip, P: Planner> Driver<C, P> {
    /// Nothing is accepted yet, and the chip's LUNs are idle.
    ///
    /// # Errors
    /// Where memory was refused.
    pub(crate) fn open(
        alloc: Global,
        setup: Setup,
        planner: P,
        chip: C,
    ) -> Result<Driver<C, P>, AllocError>
    where
        P: Drop,
        C: Drop,
        requires { IsFresh setup (C.state chip) }
        ensures { IfOk result (λ d. d ≡ (record { setup = setup; half = first_half setup }, chip)) }
    {
        let half = Half::open(alloc, setup)?;
        let lanes = Lanes::open(alloc, setup.geometry.lun_count)?;
        Ok(Driver {
            planner,
            half,
            chip,
            lanes,
        })
    }

    /// The half, to look at.
    pub(crate) fn half(&self) -> &Half
        ensures half { result.now ≡ record { setup = self.now.0.setup; state = self.now.0.half; lent = None } }
        ensures reached { Reaches (IsPromised P.exact P.certifies) self.now.0.setup (channel_in C.state self.now) }
        ensures promised { IfSome self.now.0.half.last (IsPromised P.exact P.certifies) }
    {
        &self.half
    }

    /// Its chip, to look at.
    pub(crate) fn chip(&self) -> &C
        ensures { result.now ≡ self.now.1 }
    {
        &self.chip
    }

    /// Why the channel stopped, if it did.
    pub(crate) fn cause(&self) -> Option<Cause>
        ensures { result ≡ self.now.0.half.stopped }
    {
        match self.half.refuses() {
            Some(AcceptFault::Stopped(cause)) => Some(cause),
            Some(AcceptFault::WindowFull) => None,
            None => None,
        }
    }

    /// Whether an item may be accepted: fewer than 64 are unanswered, and the half wants one.
    pub(crate) fn has_room(&self) -> bool
        ensures room { IsTrue result → accept_refusal self.now.0.half ≡ None }
        ensures wanted { IsTrue result → WantsItem self.now.0.setup self.now.0.half }
        ensures none { result ≡ false → self.now.0.half.stopped ≡ None
            → (64 ≤ unanswered self.now.0.half) ⊎ (¬ WantsItem self.now.0.setup self.now.0.half) }
    {
        match self.half.refuses() {
            Some(_) => false,
            None => self.half.wants_item(),
        }
    }

    /// Takes an item in. It takes no memory.
    pub(crate) fn accept(&mut self, item: Item)
        requires open { accept_refusal self.old.0.half ≡ None }
        requires next { IsNext self.old.0.setup self.old.0.half item }
        ensures { self.new ≡ (record self.old.0 { half = accepting self.old.0.setup self.old.0.half item }, self.old.1) }
    {
        self.half.accept(item);
    }

    /// Sets the batch of later plannings, 1 to 8, and nothing else.
    pub(crate) fn set_batch(&mut self, batch: u8)
        requires some { 1 ≤ batch }
        requires few { batch ≤ 8 }
        ensures { self.new ≡ (record self.old.0 { half = record self.old.0.half { batch = batch } }, self.old.1) }
    {
        self.half.set_batch(batch);
    }

    /// Plans, and answers when the plan ends, in ns of the channel's clock.
    ///
    /// # Errors
    /// As [`Half::plan_by`].
    pub(crate) fn plan(&mut self, alloc: Global) -> Result<u64, PlanRefusal>
        ensures step { (channel : ℕ) → Step self.old.0.setup (channel_in C.state self.old) (event.Plan channel) (planned_outcome result) (channel_in C.state self.new) }
        ensures same { self.new ≡ (record self.old.0 { half = self.new.0.half }, self.old.1) }
        ensures refused { IfErr result (λ refusal. PlanRefused self.old.0.setup self.old.0.half refusal self.new.0.half) }
        ensures accepted { self.new.0.half.accepted ≡ self.old.0.half.accepted }
        ensures posted { self.new.0.half.posted ≡ self.old.0.half.posted }
    {
        self.half.plan_by(alloc, &self.planner)
    }

    /// Runs the phase that comes next on the chip, if it doesn't start after that moment, in ns. Memory is asked for
    /// before the chip is called.
    pub(crate) fn run(&mut self, alloc: Global, now: u64) -> Ran
        ensures ran { RanTo self.old.0.setup (channel_in C.state self.old) result (channel_in C.state self.new) }
        ensures by_now { RunsBy now self.old.0.half result }
        ensures setup { self.new.0.setup ≡ self.old.0.setup }
        ensures accepted { self.new.0.half.accepted ≡ self.old.0.half.accepted }
        ensures posted { self.new.0.half.posted ≡ self.old.0.half.posted }
    {
        match self.half.due(alloc) {
            Ok(due) => self.run_by(alloc, due, now),
            Err(DueRefusal::Stopped(cause)) => Ran::Stopped(cause),
            Err(DueRefusal::NoPlan) => Ran::NoPhase,
        }
    }

    // Runs the due phase, if it doesn't start after that moment.
    fn run_by(&mut self, alloc: Global, due: Due, now: u64) -> Ran
        requires due { IsDue self.old.0.half due }
        requires open { bus_refusal self.old.0.half ≡ None }
        ensures ran { RanTo self.old.0.setup (channel_in C.state self.old) result (channel_in C.state self.new) }
        ensures by_now { RunsBy now self.old.0.half result }
        ensures setup { self.new.0.setup ≡ self.old.0.setup }
        ensures accepted { self.new.0.half.accepted ≡ self.old.0.half.accepted }
        ensures posted { self.new.0.half.posted ≡ self.old.0.half.posted }
    {
        let _half = &self.half;
        let start = due.start;
        if start > now {
            return Ran::NotBefore { start };
        }
        self.run_due(alloc, due)
    }

    // Runs the due phase on its LUN, or stops the channel.
    fn run_due(&mut self, alloc: Global, due: Due) -> Ran
        requires due { IsDue self.old.0.half due }
        requires open { bus_refusal self.old.0.half ≡ None }
        ensures ran { RanTo self.old.0.setup (channel_in C.state self.old) result (channel_in C.state self.new) }
        ensures start { IsAt due.start result }
        ensures setup { self.new.0.setup ≡ self.old.0.setup }
        ensures accepted { self.new.0.half.accepted ≡ self.old.0.half.accepted }
        ensures posted { self.new.0.half.posted ≡ self.old.0.half.posted }
    {
        let came = run_due(alloc, &mut self.half, &mut self.chip, &mut self.lanes, &due);
        judge_run(came)
    }

    /// Posts the oldest reply that is held for the host, at its poster. It takes no memory.
    pub(crate) fn post<R: Wait>(&mut self, rt: &R, host: u8, poster: &mut Poster) -> Offer
        requires host { poster.old.opened.host ≡ host }
        requires geometry { poster.old.opened.geometry ≡ self.old.0.setup.geometry }
        requires posted { poster.old.posted ≡ filter (is_to host) self.old.0.half.posted }
        ensures offered { Offered host self.old.0.half poster.old result self.new.0.half poster.new }
        ensures same { self.new ≡ (record self.old.0 { half = self.new.0.half }, self.old.1) }
    {
        let Some(reply) = self.half.held(host) else {
            return Offer::Nothing;
        };
        match poster.post(rt, reply) {
            Ok(()) => {
                self.half.posted(host);
                Offer::Posted
            }
            Err(reply) => {
                self.half.keep(reply);
                Offer::Full
            }
        }
    }
}

// What a due phase came to.
fn judge_run(came: Result<u64, PhaseStop>) -> Ran
    ensures { result ≡ ran_of came }
{
    match came {
        Ok(start) => Ran::Phase { start },
        Err(PhaseStop::Stopped(cause)) => Ran::Stopped(cause),
        Err(PhaseStop::Memory) => Ran::Memory,
    }
}
