//! The sequencer of one channel.

ghost use Rattle.std.specs.Prelude.{◌≡◌, ◌↔◌, ℕ, ◌<◌, ◌≤◌, false, length, IfOk, IfSome, IsTrue, MatchOption, None, Some};
ghost use Rattle.onfi_schedule.specs.Schedule.{Optimal, finish};
ghost use Rattle.onfi_check.specs.Tree.{AcceptsTokens};
ghost use Rattle.onfi_core.specs.Kept.{first_half};
ghost use Rattle.onfi_core.specs.Queues.{IsFresh};
ghost use Rattle.onfi_core.specs.Steps.{IsBest, IsPromised, none_left};
ghost use Rattle.onfi_core.specs.Unanswered.{unanswered_senders};
ghost use Rattle.onfi_core.specs.View.{plainly_with, planning_by};
ghost use Rattle.onfi_seq.specs.Sequencer.{AreFreshPosters, IsFreshIntake, IsRight, seen_in};

use crate::driver::Driver;
use onfi_chip::Chip;
use onfi_core::{LastPlan, Setup};
use onfi_plan::{PlainPlanner, Planner};
use onfi_planner::Planned;
use onfi_problem::Problem;
use onfi_queue::Intake;
use onfi_reply::Poster;
use std::alloc::{AllocError, Global};
use std::marker::Model;

mod closing;
mod draining;
mod turning;

/// The sequencer of one channel: its half, its planner, its chip, the intake of its submission queue and the posters of its
/// four completion queues. One thread drives it; hosts use their ends from threads of their own meanwhile. Where no planner is
/// named it is the plain one, whose plans are optimal, as tokens show.
///
/// Contracts see the setup, the half's state, the two kinds of ends, whether a planning was refused since the last phase,
/// whether a turn or a draining ever answered Memory, and the chip.
#[derive(Drop)]
pub struct Sequencer<C: Chip, P: Planner = PlainPlanner> {
    driver: Driver<C, P>,
    intake: Intake,
    /// By host.
    posters: [Poster; 4],
    /// How many items of each host are accepted.
    accepted_by: [u64; 4],
    /// Whether a planning was over, or lacked memory, since the last phase.
    refused: bool,
    /// Whether a turn or a draining answered Memory, at any time.
    short: bool,
    /// How many turns were begun, at most 2^64 - 1.
    turns: u64,
}

impl<C: Chip, P: Planner> Model for Sequencer<C, P> {
    ghost use Rattle.onfi_seq.specs.Sequencer.{SequencerView, IsKept};

    ghost Value = { SequencerView C };

    ghost view = { λ q. (
      record { setup = q.driver.0.setup; half = q.driver.0.half; intake = q.intake; posters = q.posters; refused = q.refused; short = q.short },
      q.driver.1,
    ) };

    ghost invariant = { λ q. IsKept
        (record { setup = q.driver.0.setup; half = q.driver.0.half; intake = q.intake; posters = q.posters; refused = q.refused; short = q.short })
        q.accepted_by };
}

impl<C: Chip> Sequencer<C> {
    /// The sequencer of a channel of a setup with four hosts, whose batches the plain planner plans, over its chip as that
    /// opened, with the intake and the posters of the channel's queues as those were opened: for the setup's geometry, with
    /// its capacities, host h at place h.
    ///
    /// # Errors
    /// Where memory was refused; chip, intake and posters are dropped then.
    pub fn open(
        alloc: Global,
        setup: Setup,
        channel: u8,
        chip: C,
        intake: Intake,
        posters: [Poster; 4],
    ) -> Result<Sequencer<C>, AllocError>
    where
        C: Drop,
        requires hosts { setup.hosts ≡ 4 }
        requires channel { channel < setup.channels }
        requires chip { IsFresh setup (C.state chip) }
        requires intake { IsFreshIntake setup channel intake }
        requires posters { AreFreshPosters setup channel posters }
        ensures { IfOk result (λ q. q ≡ (record { setup = setup; half = first_half setup; intake = intake; posters = posters; refused = false; short = false }, chip)) }
    {
        Sequencer::open_with(alloc, setup, channel, PlainPlanner, chip, intake, posters)
    }

    /// The problem of the last accepting planning and what was planned for it: an optimal schedule, when it ends, and tokens
    /// that show it. None before a planning.
    pub fn last(&self) -> Option<(&Problem, &Planned)>
        ensures last { MatchOption result (self.now.0.half.last ≡ None) (λ r. self.now.0.half.last ≡ Some (plainly_with r.0.now.problem r.1.now)) }
        ensures optimal { IfSome result (λ r. Optimal r.0.now.problem r.1.now.schedule) }
        ensures finish { IfSome result (λ r. r.1.now.finish ≡ finish r.0.now.problem r.1.now.schedule) }
        ensures accepted { IfSome result (λ r. AcceptsTokens r.1.now.cert.items r.0.now.problem r.1.now.finish) }
    {
        self.driver.half().last()
    }
}

impl<C: Chip, P: Planner> Sequencer<C, P> {
    /// As [`Sequencer::open`], with a planner that plans its batches.
    ///
    /// # Errors
    /// Where memory was refused; planner, chip, intake and posters are dropped then.
    pub fn open_with(
        alloc: Global,
        setup: Setup,
        channel: u8,
        planner: P,
        chip: C,
        intake: Intake,
        posters: [Poster; 4],
    ) -> Result<Sequencer<C, P>, AllocError>
    where
        P: Drop,
        C: Drop,
        requires hosts { setup.hosts ≡ 4 }
        requires channel { channel < setup.channels }
        requires chip { IsFresh setup (C.state chip) }
        requires intake { IsFreshIntake setup channel intake }
        requires posters { AreFreshPosters setup channel posters }
        ensures { IfOk result (λ q. q ≡ (record { setup = setup; half = first_half setup; intake = intake; posters = posters; refused = false; short = false }, chip)) }
    {
        let _ = channel;
        let driver = Driver::open(alloc, setup, planner, chip)?;
        Ok(Sequencer {
            driver,
            intake,
            posters,
            accepted_by: [0; 4],
            refused: false,
            short: false,
            turns: 0,
        })
    }

    /// What always holds of a sequencer, for a caller's proof; nothing happens.
    pub fn look(&self)
        ensures { IsRight (IsPromised P.exact P.certifies) (seen_in C.state self.now) }
    {
        let _half = self.driver.half();
    }

    /// The problem and the plan of the last accepting planning, by whichever planner; none before one.
    pub fn last_plan(&self) -> Option<(&Problem, &LastPlan)>
        ensures last { MatchOption result (self.now.0.half.last ≡ None) (λ r. self.now.0.half.last ≡ Some (planning_by r.0.now.problem r.1.now)) }
        ensures promised { IfSome self.now.0.half.last (IsPromised P.exact P.certifies) }
        ensures best { IsTrue P.exact → IfSome self.now.0.half.last IsBest }
    {
        self.driver.half().last_plan()
    }

    /// Whether a turn or a draining answered Memory since the sequencer opened. Once so, it stays so.
    pub fn was_short_of_memory(&self) -> bool
        ensures { result ≡ self.now.0.short }
    {
        self.short
    }

    /// Sets the batch of later plannings, 1 to 8, and nothing else: a planning that was refused stays so until a phase ran.
    pub fn set_batch(&mut self, batch: u8)
        requires some { 1 ≤ batch }
        requires few { batch ≤ 8 }
        ensures { self.new ≡ (record self.old.0 { half = record self.old.0.half { batch = batch } }, self.old.1) }
    {
        self.driver.set_batch(batch);
    }

    /// Host and serial of each accepted item without a posted reply, in acceptance order; at most 64.
    ///
    /// # Errors
    /// Where memory was refused.
    pub fn unanswered(&self, alloc: Global) -> Result<Vec<(u8, u32)>, AllocError>
        ensures { IfOk result (λ senders. senders.items ≡ unanswered_senders self.now.0.half) }
    {
        self.driver.half().unanswered(alloc)
    }

    /// Whether a phase of the plan is left, stopped or not.
    pub fn has_phase(&self) -> bool
        ensures { IsTrue result ↔ (none_left self.now.0.half ≡ false) }
    {
        self.driver.half().has_phase()
    }

    /// From when on the channel's bus is free, in ns of the channel's clock: after a phase that is its end. A caller with a
    /// clock makes no turn before: it would plan for a bus that is busy.
    pub fn bus_free(&self) -> u64
        ensures { result ≡ self.now.0.half.now.bus_free }
    {
        self.driver.half().bus_free()
    }

    /// Its chip, to look at: a caller with a clock may ask a simulated one when a LUN will be ready.
    pub fn chip(&self) -> &C
        ensures { result.now ≡ self.now.1 }
    {
        self.driver.chip()
    }
}
