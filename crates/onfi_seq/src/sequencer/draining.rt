//! Draining: turns, with replies taken in before each, until everything is answered.

ghost use Rattle.std.specs.Prelude.{◌≡◌, ◌↔◌, ℕ, ◌+◌, ◌<◌, ◌≤◌, length, true, false, IfSome, IfNone, IsTrue, OnOk, OnErr, Some, slice_get};
ghost use Rattle.std.specs.List.{filter};
ghost use Rattle.onfi_core.specs.State.{is_from};
ghost use Rattle.onfi_core.specs.Steps.{IsPromised};
ghost use Rattle.onfi_seq.specs.Drained.{AreAccepted, AreOtherEnds, Drains, DrainsBy, EndsBefore, EndsBehind, HasGrown, HaveGrown, IsAnswered, IsShort, ends_it, left_by, refusals_of};
ghost use Rattle.onfi_seq.specs.NoClock.{TurnedAtOnce, greatest, timed_end};
ghost use Rattle.onfi_seq.specs.Sequencer.{IsRight, IsSameChannel, seen_in};

use crate::clockless::end_of;
use crate::drained::{Drained, DrainedAt};
use crate::gate::Gate;
use crate::sequencer::Sequencer;
use crate::turn::TurnAt;
use onfi_chip::Chip;
use onfi_plan::Planner;
use onfi_queue::Host;
use onfi_reply::Inbox;
use std::alloc::{AllocError, Global};
use std::sync::Wait;

impl<C: Chip, P: Planner> Sequencer<C, P> {
    /// Makes turns, at most that many, until all that the hosts sent is accepted and answered, and takes replies in before each,
    /// so that no queue stays full. Hosts and inboxes are the other ends of the channel's queues, in the order of the hosts'
    /// numbers. Stopped ends it, and so do Over and Memory of a turn where no phase is left then, and a taking in that is
    /// refused memory. No time passes, as in [`Sequencer::turn`].
    ///
    /// After the last turn it takes in and looks once more, so turns that just suffice give Empty.
    pub fn drain<R: Wait, G: Gate>(
        &mut self,
        rt: &R,
        alloc: Global,
        gate: &mut G,
        hosts: &[Host; 4],
        inboxes: &mut [Inbox; 4],
        turns: u64,
    ) -> Drained
        requires { AreOtherEnds self.old.0 hosts.now inboxes.old }
        ensures drains { Drains (IsPromised P.exact P.certifies) greatest (seen_in C.state self.old) hosts.now inboxes.old turns (timed_end result) (seen_in C.state self.new) inboxes.new }
        ensures no_time { DrainsBy (IsPromised P.exact P.certifies) TurnedAtOnce (seen_in C.state self.old) hosts.now inboxes.old turns (timed_end result) (seen_in C.state self.new) inboxes.new }
        ensures inboxes { HaveGrown inboxes.old inboxes.new }
        ensures right { IsRight (IsPromised P.exact P.certifies) (seen_in C.state self.new) }
        ensures same { IsSameChannel (seen_in C.state self.old) (seen_in C.state self.new) }
        ensures short { self.old.0.short ≡ true → self.new.0.short ≡ true }
    {
        let end = self.drain_at(rt, alloc, gate, u64::MAX, hosts, inboxes, turns);
        end_of(end)
    }

    /// As [`Sequencer::drain`], with turns at the moment `now`, as [`Sequencer::turn_at`] makes them: Waits ends it too.
    pub fn drain_at<R: Wait, G: Gate>(
        &mut self,
        rt: &R,
        alloc: Global,
        gate: &mut G,
        now: u64,
        hosts: &[Host; 4],
        inboxes: &mut [Inbox; 4],
        turns: u64,
    ) -> DrainedAt
        requires { AreOtherEnds self.old.0 hosts.now inboxes.old }
        ensures drains { Drains (IsPromised P.exact P.certifies) now (seen_in C.state self.old) hosts.now inboxes.old turns result (seen_in C.state self.new) inboxes.new }
        ensures inboxes { HaveGrown inboxes.old inboxes.new }
        ensures right { IsRight (IsPromised P.exact P.certifies) (seen_in C.state self.new) }
        ensures same { IsSameChannel (seen_in C.state self.old) (seen_in C.state self.new) }
        ensures short { self.old.0.short ≡ true → self.new.0.short ≡ true }
    {
        self.look();
        let mut made = 0u64;
        loop {
            if take_in_all(rt, alloc, inboxes).is_err() {
                self.note_refused_memory();
                return DrainedAt::Memory;
            }
            if let Some(end) = self.end_before_turn(hosts, made, turns) {
                return end;
            }
            let turn = self.turn_at(rt, alloc, gate, now);
            made += 1;
            if let Some(end) = self.end_after_turn(turn) {
                return end;
            }
        }
    }

    // A taking in was refused.
    fn note_refused_memory(&mut self)
        ensures { seen_in C.state self.new ≡ left_by DrainedAt.Memory (seen_in C.state self.old) }
    {
        self.short = true;
    }

    // How a draining ends where that many of its turns are made, if it does.
    fn end_before_turn(&self, hosts: &[Host; 4], made: u64, turns: u64) -> Option<DrainedAt>
        requires { made ≤ turns }
        ensures some { IfSome result (λ end. EndsBefore end self.now.0.half hosts.now turns made) }
        ensures none { IfNone result (made < turns) }
    {
        if self.has_answered(hosts) {
            return Some(DrainedAt::Empty);
        }
        if made >= turns {
            return Some(DrainedAt::TurnsSpent);
        }
        None
    }

    // Whether all that the hosts sent is accepted, and each accepted item has its reply posted.
    fn has_answered(&self, hosts: &[Host; 4]) -> bool
        ensures answered { IsTrue result → IsAnswered self.now.0.half hosts.now }
        ensures waits { result ≡ false → IsShort self.now.0.half hosts.now }
    {
        self.has_accepted(hosts) && self.driver.half().is_answered()
    }

    // Whether all that the hosts sent is accepted, host by host.
    fn has_accepted(&self, hosts: &[Host; 4]) -> bool
        ensures { IsTrue result ↔ AreAccepted self.now.0.half hosts.now }
    {
        for host in 0..4usize {
            if self.accepted_by[host] != hosts[host].sent() {
                return false;
            }
        }
        true
    }

    // How a draining ends after that answer, if it does.
    fn end_after_turn(&self, turn: TurnAt) -> Option<DrainedAt>
        ensures some { IfSome result (λ end. EndsBehind end turn self.now.0.half) }
        ensures none { IfNone result (ends_it turn self.now.0.half ≡ false) }
    {
        match turn {
            TurnAt::Stopped(cause) => Some(DrainedAt::Stopped(cause)),
            TurnAt::Waits { until } => Some(DrainedAt::Waits { until }),
            TurnAt::Over { opened } if !self.has_phase() => Some(DrainedAt::Over { opened }),
            TurnAt::Memory if !self.has_phase() => Some(DrainedAt::Memory),
            _ => None,
        }
    }
}

// Takes in what waits for each host, until a taking in is refused.
fn take_in_all<R: Wait>(rt: &R, alloc: Global, inboxes: &mut [Inbox; 4]) -> Result<(), AllocError>
    ensures grown { HaveGrown inboxes.old inboxes.new }
    ensures taken { OnOk result (refusals_of inboxes.new ≡ refusals_of inboxes.old) }
    ensures refused { OnErr result (refusals_of inboxes.new ≡ refusals_of inboxes.old + 1) }
{
    for at in 0..4usize {
        let inbox = &mut inboxes[at];
        take_in(rt, alloc, inbox)?;
    }
    Ok(())
}

// Takes in what waits in the inbox's queue, at most as much as a queue holds, until a taking in is refused.
fn take_in<R: Wait>(rt: &R, alloc: Global, inbox: &mut Inbox) -> Result<(), AllocError>
    ensures grown { HasGrown inbox.old inbox.new }
    ensures taken { OnOk result (inbox.new.refused ≡ inbox.old.refused) }
    ensures refused { OnErr result (inbox.new.refused ≡ inbox.old.refused + 1) }
{
    for _reply in 0..1024u16 {
        if !inbox.take_in(rt, alloc)? {
            break;
        }
    }
    Ok(())
}
