//! A channel in its thread.
ghost use Rattle.std.specs.Prelude.{◌≡◌, Bool, IfSome, IsTrue, Some, false};
ghost use Rattle.onfi_run.specs.declared.progress.Progress.{Progress as AProgress};
ghost use Rattle.onfi_run.specs.declared.channel_end.ChannelEnd.{ChannelEnd};
ghost use Rattle.onfi_run.specs.Pace.{EndsWithin, IsTurned, MayTurn, Waits, due_of};
ghost use Rattle.onfi_run.specs.Ending.{IsOverAt, is_spent, refusals_behind, thread_end};

use crate::board::Board;
use crate::channel::{Channel, NO_CLOCK};
use crate::channel_end::ChannelEnd;
use crate::pace::Pace;
use crate::progress::Progress;
use std::alloc::Global;
use std::sync::Wait;
use std::thread;

/// How many turns, with no phase and no plan between them, may be refused memory before the one that ends a thread.
const MOST_REFUSALS: u64 = 999;

/// A channel in its thread.
#[derive(Drop)]
pub(crate) struct Lane<C: Channel> {
    pub(crate) channel: C,
    /// How the channel's thread ended: done where nothing was left to do and all hosts had ended, unfinished where memory
    /// was refused.
    pub(crate) ended: ChannelEnd,
    /// How many turns were refused memory since the last phase or plan.
    pub(crate) refusals: u64,
    /// When it makes its next turn, in a run with a clock.
    pub(crate) pace: Pace,
}

impl<C: Channel> Lane<C> {
    /// How the channel's thread ends after a turn that came to this, if it does.
    fn end_after(&mut self, progress: Progress, all_ended: bool) -> Option<ChannelEnd>
        ensures channel { self.new.channel ≡ self.old.channel }
        ensures ended { self.new.ended ≡ self.old.ended }
        ensures pace { self.new.pace ≡ self.old.pace }
        ensures end { result ≡ thread_end (is_spent self.old.refusals) all_ended progress }
        ensures refusals { self.new.refusals ≡ refusals_behind self.old.refusals progress }
    {
        match progress {
            Progress::Advanced => {
                self.refusals = 0;
                None
            }
            Progress::Moved | Progress::Waits { .. } => None,
            Progress::Quiet if all_ended => Some(ChannelEnd::Done),
            Progress::Quiet => None,
            Progress::Refused if self.refusals >= MOST_REFUSALS => Some(ChannelEnd::Unfinished),
            Progress::Refused => {
                self.refusals += 1;
                None
            }
            Progress::Starved => Some(ChannelEnd::Unfinished),
            Progress::Stopped(cause) => Some(ChannelEnd::Stopped(cause)),
            Progress::Over { opened } => Some(ChannelEnd::Over { opened }),
        }
    }

    /// Makes a turn, and answers how the channel's thread ends after it, if it does.
    fn step<R: Wait>(&mut self, rt: &R, alloc: Global, board: &Board) -> Option<ChannelEnd>
        ensures ended { (p : AProgress) × (all_ended : Bool) × C.proceeds 18446744073709551615 self.old.channel p self.new.channel × (result ≡ thread_end (is_spent self.old.refusals) all_ended p) }
        ensures same { C.queues self.new.channel ≡ C.queues self.old.channel }
        ensures over { IfSome result (IsOverAt (C.queues self.old.channel).nodes) }
        ensures short { IsTrue (C.short self.old.channel) → IsTrue (C.short self.new.channel) }
    {
        let progress = self.channel.turn(rt, alloc, NO_CLOCK);
        if matches!(progress, Progress::Quiet) {
            thread::yield_now();
        }
        self.end_after(progress, board.have_hosts_ended())
    }

    /// From when on it may make a turn, in ns of the run's clock; `NO_CLOCK` where there is no such moment.
    pub(crate) fn due(&self) -> u64
        ensures { result ≡ due_of self.now.pace (C.free self.now.channel) }
    {
        self.pace.due(self.channel.bus_free())
    }

    /// Makes a turn at that moment of the run's clock, if it may make one, and answers whether it did.
    pub(crate) fn turn_at<R: Wait>(&mut self, rt: &R, alloc: Global, now: u64) -> bool
        ensures due { IsTrue result → MayTurn now self.old.pace (C.free self.old.channel) }
        ensures waits { result ≡ false → Waits now self.old.pace (C.free self.old.channel) }
        ensures turned { IsTrue result → (p : AProgress) × C.proceeds now self.old.channel p self.new.channel
            × IsTurned now p (C.free self.new.channel) (C.done_behind self.new.channel now) self.old self.new }
        ensures none { result ≡ false → self.new ≡ self.old }
        ensures same { C.queues self.new.channel ≡ C.queues self.old.channel }
        ensures over { EndsWithin C.queues self.old → EndsWithin C.queues self.new }
        ensures short { IsTrue (C.short self.old.channel) → IsTrue (C.short self.new.channel) }
    {
        if self.pace.has_ended {
            return false;
        }
        if self.due() > now {
            return false;
        }
        let progress = self.channel.turn(rt, alloc, now);
        let end = self.end_after(progress, false);
        self.ended = end.unwrap_or(self.ended);
        let free = self.channel.bus_free();
        let ready = self.channel.next_ready(now);
        self.pace.turn(now, free, ready, progress, end.is_some());
        true
    }

    /// What the channel's thread does: turns, until the channel stopped or can't plan with no phase left, or nothing is
    /// left to do and all hosts have ended. It makes a turn before it looks at the hosts.
    pub(crate) fn serve<R: Wait>(
        mut self,
        rt: &R,
        alloc: Global,
        board: &Board,
        number: usize,
    ) -> Lane<C>
        ensures ended { (before : C) × (p : AProgress) × (spent : Bool) × (all_ended : Bool) × C.proceeds 18446744073709551615 before p result.channel × (Some result.ended ≡ thread_end spent all_ended p) }
        ensures same { C.queues result.channel ≡ C.queues self.channel }
        ensures over { EndsWithin C.queues result }
        ensures short { IsTrue (C.short self.channel) → IsTrue (C.short result.channel) }
    {
        for _ in rt.forever() {
            if let Some(end) = self.step(rt, alloc, board) {
                self.ended = end;
                board.end_channel(number);
                return self;
            }
        }
        unreachable!()
    }
}
