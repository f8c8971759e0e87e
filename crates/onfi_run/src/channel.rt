//! What a run needs of a channel's sequencer.
ghost use Rattle.std.specs.Prelude.{◌≡◌, IfSome, IsTrue};
ghost use Rattle.onfi_run.specs.Ending.{IsOverAt, IsTurnOverAt, is_refusal};
ghost use Rattle.onfi_run.specs.Keys.{AreEnds, queues_of};
ghost use Rattle.onfi_record.specs.Recording.{IsTraceText};

use crate::channel_end::ChannelEnd;
use crate::progress::Progress;
use onfi_queue::Host;
use onfi_reply::Inbox;
use std::alloc::Global;
use std::sync::Wait;

/// The moment of a turn in a run without a clock: nothing waits then.
pub(crate) const NO_CLOCK: u64 = u64::MAX;

/// How the draining of a channel ended.
#[derive(Clone, Copy)]
pub struct Drained {
    pub end: ChannelEnd,
    /// Whether memory was refused to a turn of the channel, ever, or to this draining.
    pub short_of_memory: bool,
}

/// A channel as a run drives it: the sequencer, with the gate that is called before each of its turns.
pub trait Channel {
    ghost use Rattle.std.specs.Prelude.{Bool, List, Option, ℕ};
    ghost use Rattle.onfi_queue.specs.Ends.{HostView};
    ghost use Rattle.onfi_reply.specs.Ends.{InboxView};
    ghost use Rattle.onfi_run.specs.declared.channel.Drained.{Drained};
    ghost use Rattle.onfi_run.specs.declared.progress.Progress.{Progress};
    ghost use Rattle.onfi_run.specs.Keys.{ChannelQueues};

    /// The queues whose ends it holds, and how many nodes a planning of it may open, if any is made.
    ghost queues: { Self → ChannelQueues };

    /// Whether memory was refused to one of its turns.
    ghost short: { Self → Bool };

    /// From when on its bus is free, in ns of its clock.
    ghost free: { Self → ℕ };

    /// The next moment after that one at which an array of its chip is done sooner than stated, in ns of its clock.
    ghost done_behind: { Self → ℕ → Option ℕ };

    /// What a turn at that moment, from the one to the other, came to.
    ghost proceeds: { ℕ → Self → Progress → Self → Type 0 };

    /// What a draining with these hosts from the one to the other came to, and from these inboxes to those.
    ghost drains: { Self → List HostView → List InboxView → Drained → Self → List InboxView → Type 0 };

    /// Makes a turn at that moment, in ns of its clock; at the greatest nothing waits.
    fn turn<R: Wait>(&mut self, rt: &R, alloc: Global, now: u64) -> Progress
        ensures turned { proceeds now self.old result self.new }
        ensures same { queues self.new ≡ queues self.old }
        ensures over { IsTurnOverAt (queues self.old).nodes result }
        ensures refused { IsTrue (is_refusal result) → IsTrue (short self.new) }
        ensures short { IsTrue (short self.old) → IsTrue (short self.new) };

    /// From when on its bus is free, in ns of its clock.
    fn bus_free(&self) -> u64
        ensures { result ≡ free self.now };

    /// The next moment after `now` at which an array of its chip is done sooner than stated, in ns of its clock.
    fn next_ready(&self, now: u64) -> Option<u64>
        ensures { result ≡ done_behind self.now now };

    /// The trace of all phases that its bus carried since it opened; none where it isn't kept, or memory was refused to it.
    fn trace(&self, alloc: Global) -> Option<Vec<u8>>
        ensures { IfSome result (λ text. IsTraceText text.items) };

    /// Makes turns at the greatest moment, and takes replies in, until everything is answered, or says why it isn't.
    fn drain<R: Wait>(
        &mut self,
        rt: &R,
        alloc: Global,
        hosts: &[Host; 4],
        inboxes: &mut [Inbox; 4],
    ) -> Drained
        requires { AreEnds (queues self.old) hosts.now inboxes.old }
        ensures drained { drains self.old hosts.now inboxes.old result self.new inboxes.new }
        ensures same { queues self.new ≡ queues self.old }
        ensures over { IsOverAt (queues self.old).nodes result.end }
        ensures inboxes { queues_of inboxes.new ≡ queues_of inboxes.old }
        ensures short { IsTrue (short self.old) → IsTrue result.short_of_memory };

    /// Takes all ends back.
    fn close<R: Wait>(self, rt: &R, hosts: [Host; 4], inboxes: [Inbox; 4])
        requires { AreEnds (queues self) hosts inboxes };
}
