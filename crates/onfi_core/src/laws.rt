//! What events keep, once for all, for whoever makes their steps.

ghost use Rattle.onfi_core.specs.Core.{Headline, OpenedIsReached, StepKeeps, RunKeeps, ReachedKeeps, PostedInOrder};
ghost use Rattle.onfi_core.specs.Steps.{FinishIsBest, IsPromised, PlainIsPlain};
ghost use Rattle.onfi_core.specs.Reaching.{EventsReach, StepReaches, BatchReached, AcceptingReached, PostingReached, PlannedStep, IdleIs, NothingHeld, NextBehind};

use onfi_plan::Planner;

/// Whatever list of events happens to an opened core, and whichever batches are set between them, each channel keeps
/// its promise after each of them: of an exact planner each plan is optimal, and its certificate shows it.
pub fn headline<P: Planner>()
    ensures { Headline P.exact P.certifies }
{}

/// A channel as it was opened is one that is reached.
pub fn opened_is_reached()
    ensures { OpenedIsReached }
{}

/// Each step leads from a channel that is reached to one that is.
#[tactic(auto, using(crate::proofs::Reach::step_kept))]
pub fn step_keeps()
    ensures { StepKeeps }
{}

/// A list of events leads from channels that are reached to ones that are, and that keep the promise.
pub fn run_keeps<P: Planner>()
    ensures { RunKeeps P.exact P.certifies }
{}

/// A channel that is reached, and whose last plan is as its planner promises, keeps the promise: its posted replies are those
/// of the die model, each at most once.
pub fn reached_keeps<P: Planner>()
    ensures { ReachedKeeps P.exact P.certifies }
{}

/// What is posted to a host of a channel that is reached is in order of making.
pub fn posted_in_order()
    ensures { PostedInOrder }
{}

/// A channel that was opened, and to which nothing but events happened and batches were set, is one that is reached; where each
/// of its plans is as its planner promises, the last one is.
pub fn events_reach<P: Planner>()
    ensures { EventsReach (IsPromised P.exact P.certifies) }
{}

/// Each step leads from a channel that events reach to one that they reach.
pub fn step_reaches<P: Planner>()
    ensures { StepReaches (IsPromised P.exact P.certifies) }
{}

/// So does a batch that is set.
pub fn batch_reached<P: Planner>()
    ensures { BatchReached (IsPromised P.exact P.certifies) }
{}

/// From a channel with nothing on its way, an item that is its host's next and in range is submitted and accepted: the
/// channel with that item is reached too.
pub fn accepting_reached<P: Planner>()
    ensures { AcceptingReached (IsPromised P.exact P.certifies) }
{}

/// From a channel with nothing on its way, the oldest reply that is held for a host is posted and collected: the channel
/// after that is reached too.
pub fn posting_reached<P: Planner>()
    ensures { PostingReached (IsPromised P.exact P.certifies) }
{}

/// What the planning of a half came to is a step of its channel.
pub fn planned_step()
    ensures { PlannedStep }
{}

/// Where no phase is left and nothing is to be planned, no want waits to start and no item is unplanned.
#[tactic(auto, using(crate::proofs::HeldFor::idle_is))]
pub fn idle_is()
    ensures { IdleIs }
{}

/// Where nothing is held for any host of the setup, nothing is held.
pub fn nothing_held()
    ensures { NothingHeld }
{}

/// What was posted to a host, and then the reply that goes out to it, is rightful in what that reply rests on.
pub fn next_behind()
    ensures { NextBehind }
{}

/// A plan before whose finish nothing ends is optimal, and its certificate is accepted for its finish.
#[tactic(auto, using(crate::proofs::Promised::finish_is_best))]
pub fn finish_is_best()
    ensures { FinishIsBest }
{}

/// What an exact planner plans that gives tokens is shown by tokens, which are accepted for its finish.
pub fn plain_is_plain()
    ensures { PlainIsPlain }
{}
