//! A sequencer with its gate, as a run drives it.
ghost use Rattle.std.specs.Prelude.{◌≡◌, ◌||◌};
ghost use Rattle.onfi_core.specs.Steps.{none_left};
ghost use Rattle.onfi_run.specs.Ending as spec;

use crate::channel::{Channel, Drained};
use crate::channel_end::ChannelEnd;
use crate::progress::Progress;
use onfi_chip::SimChip;
use onfi_plan::Planner;
use onfi_queue::Host;
use onfi_record::Recorder;
use onfi_reply::Inbox;
use onfi_seq::{Drained as End, Gate, Sequencer, TurnAt};
use std::alloc::Global;
use std::sync::Wait;

/// The most turns of a drain.
const MOST_TURNS: u64 = 1_000_000;

/// The sequencer of a simulated chip that keeps what its bus carries, which plans by a planner of this type, with the gate that is called before each of its
/// turns.
#[derive(Drop)]
pub(crate) struct Gated<P: Planner, G: Gate> {
    pub(crate) sequencer: Sequencer<Recorder<SimChip>, P>,
    pub(crate) gate: G,
}

impl<P: Planner, G: Gate> Gated<P, G> {
    /// How its thread goes on after a turn that came to this.
    fn progress(&self, turn: TurnAt) -> Progress
        ensures { result ≡ spec.progress_of (none_left self.now.sequencer.0.half) turn }
    {
        match turn {
            TurnAt::Stopped(cause) => Progress::Stopped(cause),
            TurnAt::Over { .. } if self.sequencer.has_phase() => Progress::Moved,
            TurnAt::Over { opened } => Progress::Over { opened },
            TurnAt::Memory if self.sequencer.has_phase() => Progress::Refused,
            TurnAt::Memory => Progress::Starved,
            TurnAt::Phase | TurnAt::Planned => Progress::Advanced,
            TurnAt::Posted | TurnAt::Accepted => Progress::Moved,
            TurnAt::Waits { until } => Progress::Waits { until },
            TurnAt::PostFull | TurnAt::Idle => Progress::Quiet,
        }
    }
}

/// How a channel ended whose draining ended so.
fn end_of(end: End) -> ChannelEnd
    ensures { result ≡ spec.end_of end }
{
    match end {
        End::Empty | End::Memory => ChannelEnd::Done,
        End::TurnsSpent => ChannelEnd::Unfinished,
        End::Stopped(cause) => ChannelEnd::Stopped(cause),
        End::Over { opened } => ChannelEnd::Over { opened },
    }
}

/// Whether memory was refused: to a turn, or to a draining that ended so.
fn is_short(end: End, short: bool) -> bool
    ensures { result ≡ (spec.is_memory end || short) }
{
    matches!(end, End::Memory) || short
}

impl<P: Planner + Drop, G: Gate + Drop> Channel for Gated<P, G> {
    ghost use Rattle.onfi_chip.specs.SimChip.{chip_in, next_ready};
    ghost use Rattle.onfi_record.specs.Recording.{chip_in as recorded};
    ghost use Rattle.onfi_core.specs.Steps.{IsPromised};
    ghost use Rattle.onfi_seq.specs.Drained.{poster_queues};
    ghost use Rattle.onfi_seq.specs.Sequencer.{seen_in};
    ghost use Rattle.onfi_run.specs.Ending.{DrainsTo, Proceeds};
    ghost use Rattle.onfi_run.specs.Opening.{nodes_in};

    ghost queues = { λ c. record { requests = c.sequencer.0.intake.queue; replies = poster_queues c.sequencer.0.posters; nodes = nodes_in c.sequencer.0.setup } };

    ghost short = { λ c. c.sequencer.0.short };

    ghost free = { λ c. c.sequencer.0.half.now.bus_free };

    ghost done_behind = { λ c now. next_ready c.sequencer.1.1 now };

    ghost proceeds = { λ now c p c'. Proceeds (IsPromised P.exact P.certifies) now (seen_in (recorded chip_in) c.sequencer) p (seen_in (recorded chip_in) c'.sequencer) };

    ghost drains = { λ c hosts inboxes d c' inboxes'. DrainsTo (IsPromised P.exact P.certifies) (seen_in (recorded chip_in) c.sequencer) hosts inboxes d (seen_in (recorded chip_in) c'.sequencer) inboxes' };

    fn turn<R: Wait>(&mut self, rt: &R, alloc: Global, now: u64) -> Progress {
        let turn = self.sequencer.turn_at(rt, alloc, &mut self.gate, now);
        self.progress(turn)
    }

    fn bus_free(&self) -> u64 {
        self.sequencer.bus_free()
    }

    fn next_ready(&self, now: u64) -> Option<u64> {
        self.sequencer.chip().chip().next_ready(now)
    }

    fn trace(&self, alloc: Global) -> Option<Vec<u8>> {
        self.sequencer.chip().trace(alloc)
    }

    fn drain<R: Wait>(
        &mut self,
        rt: &R,
        alloc: Global,
        hosts: &[Host; 4],
        inboxes: &mut [Inbox; 4],
    ) -> Drained {
        let end = self
            .sequencer
            .drain(rt, alloc, &mut self.gate, hosts, inboxes, MOST_TURNS);
        let short = self.sequencer.was_short_of_memory();
        Drained {
            end: end_of(end),
            short_of_memory: is_short(end, short),
        }
    }

    fn close<R: Wait>(self, rt: &R, hosts: [Host; 4], inboxes: [Inbox; 4]) {
        let Gated { sequencer, gate: _ } = self;
        sequencer.close(rt, hosts, inboxes);
    }
}
