//! Several channels, over events.

ghost use Rattle.std.specs.Prelude.{◌≡◌, ◌<◌, ◌≤◌, ◌↔◌, length, map, None, Some, Option, IfOk, IfSome, IsTrue, OnErr, IsErrOf, MatchOption, slice_get};
ghost use Rattle.onfi_schedule.specs.Schedule.{Optimal, finish};
ghost use Rattle.onfi_check.specs.Tree.{AcceptsTokens};
ghost use Rattle.std.specs.List.{AllByRecursion as Each};
ghost use Rattle.onfi_core.specs.Core.{CoreStep, CoreRun, Did};
ghost use Rattle.onfi_core.specs.Core.Doing.{SetsBatch};
ghost use Rattle.onfi_core.specs.State.{ChannelState};
ghost use Rattle.onfi_core.specs.Steps.{IsBest, IsPromised};
ghost use Rattle.onfi_core.specs.Kept.{IsReached, KeepsPromise};
ghost use Rattle.onfi_core.specs.Reaching.{Reaches};
ghost use Rattle.onfi_core.specs.Queues.{IsFresh, AreOpened, opened_with, state_in, states_in};
ghost use Rattle.onfi_core.specs.View.{plainly_with, planning_by};

use crate::batch::LastPlan;
use crate::channel::Channel;
use crate::event::Event;
use crate::outcome::Outcome;
use crate::setup::Setup;
use onfi_chip::Chip;
use onfi_plan::{PlainPlanner, Planner};
use onfi_planner::Planned;
use onfi_problem::Problem;
use std::alloc::{AllocError, Global};
use std::marker::Model;
use thiserror::Error;

/// The channels of a setup with their hosts, in one thread, and what plans their batches: where no planner is named the
/// plain one, whose plans are optimal, as tokens show.
///
/// Contracts see the setup and, by `states_in`, the state of each channel.
#[derive(Drop)]
pub struct Core<C: Chip, P: Planner = PlainPlanner> {
    setup: Setup,
    planner: P,
    channels: Vec<Channel<C>>,
}

impl<C: Chip, P: Planner> Model for Core<C, P> {
    ghost use Rattle.onfi_core.specs.Queues.{CoreView, AreChannels};
    ghost use Rattle.onfi_core.specs.Steps.{IsPromised};

    ghost Value = { CoreView C };

    ghost view = { λ c. (c.setup, c.channels.items) };

    ghost invariant = { λ c. AreChannels C.state (IsPromised P.exact P.certifies) c.setup c.channels.items };
}

/// Why a core doesn't open, in the order in which it is reported.
#[derive(Clone, Copy, Debug, PartialEq, Eq, Error)]
pub enum CoreFault {
    /// Not one chip for each channel of the setup.
    #[error("not one chip for each channel")]
    Chips,
    /// Memory was refused.
    #[error("out of memory")]
    Memory,
}

impl<C: Chip> Core<C> {
    /// A core of these chips, one for each channel in order, whose batches the plain planner plans: nothing is sent,
    /// accepted or planned.
    ///
    /// # Errors
    /// `Chips` exactly where there is not one chip for each channel of the setup; else `Memory`. The chips are dropped.
    pub fn open(alloc: Global, setup: Setup, chips: Vec<C>) -> Result<Core<C>, CoreFault>
    where
        C: Drop,
        requires { Each (λ chip. IsFresh setup (C.state chip)) chips.items }
        ensures opened { IfOk result (λ core. (core.0 ≡ setup) × (states_in C.state core ≡ map (λ chip. opened_with setup (C.state chip)) chips.items)) }
        ensures chips { IsErrOf result CoreFault.Chips ↔ ¬ (length chips.items ≡ setup.channels) }
    {
        Core::open_with(alloc, setup, PlainPlanner, chips)
    }

    /// The problem of the channel's last accepting planning and what was planned for it: an optimal schedule, when it ends,
    /// and tokens that show it. None before a planning.
    pub fn last(&self, channel: u8) -> Option<(&Problem, &Planned)>
        requires { channel < self.now.0.channels }
        ensures last { (c : ChannelState) → slice_get (states_in C.state self.now) channel ≡ Some c
            → MatchOption result (c.half.last ≡ None) (λ r. c.half.last ≡ Some (plainly_with r.0.now.problem r.1.now)) }
        ensures optimal { IfSome result (λ r. Optimal r.0.now.problem r.1.now.schedule) }
        ensures finish { IfSome result (λ r. r.1.now.finish ≡ finish r.0.now.problem r.1.now.schedule) }
        ensures accepted { IfSome result (λ r. AcceptsTokens r.1.now.cert.items r.0.now.problem r.1.now.finish) }
    {
        self.channels[usize::from(channel)].last()
    }
}

impl<C: Chip, P: Planner> Core<C, P> {
    /// A core of these chips, one for each channel in order, whose batches that planner plans: nothing is sent, accepted
    /// or planned.
    ///
    /// # Errors
    /// `Chips` exactly where there is not one chip for each channel of the setup; else `Memory`. Planner and chips are
    /// dropped.
    pub fn open_with(
        alloc: Global,
        setup: Setup,
        planner: P,
        chips: Vec<C>,
    ) -> Result<Core<C, P>, CoreFault>
    where
        P: Drop,
        C: Drop,
        requires { Each (λ chip. IsFresh setup (C.state chip)) chips.items }
        ensures opened { IfOk result (λ core. (core.0 ≡ setup) × (states_in C.state core ≡ map (λ chip. opened_with setup (C.state chip)) chips.items)) }
        ensures chips { IsErrOf result CoreFault.Chips ↔ ¬ (length chips.items ≡ setup.channels) }
    {
        if chips.len() != usize::from(setup.channels) {
            return Err(CoreFault::Chips);
        }
        match open_channels(alloc, setup, chips) {
            Ok(channels) => Ok(Core {
                setup,
                planner,
                channels,
            }),
            Err(_) => Err(CoreFault::Memory),
        }
    }

    /// One event, and what it came to.
    pub fn step(&mut self, alloc: Global, event: Event) -> Outcome
        ensures step { CoreStep (IsPromised P.exact P.certifies) self.old.0 (states_in C.state self.old) event result (states_in C.state self.new) }
        ensures setup { self.new.0 ≡ self.old.0 }
        ensures by_events { Each (Reaches (IsPromised P.exact P.certifies) self.new.0) (states_in C.state self.new) }
        ensures promised { Each (λ c. IfSome c.half.last (IsPromised P.exact P.certifies)) (states_in C.state self.new) }
    {
        self.is_reached();
        let at = usize::from(event.channel());
        if at >= self.channels.len() {
            return Outcome::NoSuch(event.into_request());
        }
        let channel = &mut self.channels[at];
        let outcome = channel.step(alloc, &self.planner, event);
        self.is_reached();
        outcome
    }

    /// The events one after another, and what each came to. Each plan of them is as the planner promises: of an exact one it is
    /// optimal, and its certificate is accepted for its finish.
    ///
    /// # Errors
    /// Where memory for the answer was refused: then nothing was done.
    pub fn run(&mut self, alloc: Global, events: Vec<Event>) -> Result<Vec<Outcome>, AllocError>
        ensures run { IfOk result (λ outcomes. CoreRun (IsPromised P.exact P.certifies) self.old.0 (states_in C.state self.old) events.items outcomes.items (states_in C.state self.new)) }
        ensures nothing { OnErr result (self.new ≡ self.old) }
        ensures setup { self.new.0 ≡ self.old.0 }
        ensures by_events { Each (Reaches (IsPromised P.exact P.certifies) self.new.0) (states_in C.state self.new) }
        ensures reached { Each (IsReached self.new.0) (states_in C.state self.new) }
        ensures keeps { Each (KeepsPromise P.exact P.certifies self.new.0) (states_in C.state self.new) }
        ensures promised { Each (λ c. IfSome c.half.last (IsPromised P.exact P.certifies)) (states_in C.state self.new) }
        ensures best { IsTrue P.exact → Each (λ c. IfSome c.half.last IsBest) (states_in C.state self.new) }
    {
        self.is_reached();
        let mut outcomes = Vec::with_capacity(alloc, events.len())?;
        let mut left = events.into_iter();
        while let Some(event) = left.next() {
            outcomes.push_reserved(self.step(alloc, event));
        }
        self.is_reached();
        Ok(outcomes)
    }

    // Each channel is one that events reach, and keeps its promise.
    fn is_reached(&self)
        ensures by_events { Each (Reaches (IsPromised P.exact P.certifies) self.now.0) (states_in C.state self.now) }
        ensures reached { Each (IsReached self.now.0) (states_in C.state self.now) }
        ensures keeps { Each (KeepsPromise P.exact P.certifies self.now.0) (states_in C.state self.now) }
        ensures promised { Each (λ c. IfSome c.half.last (IsPromised P.exact P.certifies)) (states_in C.state self.now) }
        ensures best { IsTrue P.exact → Each (λ c. IfSome c.half.last IsBest) (states_in C.state self.now) }
    {
        let _setup = self.setup;
    }

    /// The problem and the plan of the channel's last accepting planning, by whichever planner; none before one.
    pub fn last_plan(&self, channel: u8) -> Option<(&Problem, &LastPlan)>
        requires { channel < self.now.0.channels }
        ensures { (c : ChannelState) → slice_get (states_in C.state self.now) channel ≡ Some c
            → MatchOption result (c.half.last ≡ None) (λ r. c.half.last ≡ Some (planning_by r.0.now.problem r.1.now)) }
    {
        self.channels[usize::from(channel)].last_plan()
    }

    /// Sets the batch of the channel's later plannings, 1 to 8, and nothing else.
    pub fn set_batch(&mut self, channel: u8, batch: u8)
        requires there { channel < self.old.0.channels }
        requires some { 1 ≤ batch }
        requires few { batch ≤ 8 }
        ensures set { Did (IsPromised P.exact P.certifies) self.old.0 (states_in C.state self.old) (SetsBatch channel batch) (states_in C.state self.new) }
        ensures setup { self.new.0 ≡ self.old.0 }
    {
        let channel = &mut self.channels[usize::from(channel)];
        channel.set_batch(batch);
    }
}

// A channel for each chip, in order.
fn open_channels<C: Chip + Drop>(
    alloc: Global,
    setup: Setup,
    chips: Vec<C>,
) -> Result<Vec<Channel<C>>, AllocError>
    requires { Each (λ chip. IsFresh setup (C.state chip)) chips.items }
    ensures { IfOk result (λ channels. AreOpened C.state setup chips.items channels.items) }
{
    let mut channels = Vec::with_capacity(alloc, chips.len())?;
    let mut left = chips.into_iter();
    while let Some(chip) = left.next() {
        channels.push_reserved(Channel::open(alloc, setup, chip)?);
    }
    Ok(channels)
}
