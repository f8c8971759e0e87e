//! When a channel makes its next turn, in a run with a clock.
ghost use Rattle.std.specs.Prelude.{◌≡◌};
ghost use Rattle.onfi_run.specs.Pace as spec;

use crate::bus_use::BusUse;
use crate::channel::NO_CLOCK;
use crate::progress::Progress;

/// When a channel makes its next turn, in a run with a clock, and how busy its bus was. A run without a clock leaves it as it
/// opens.
#[derive(Clone, Copy)]
pub(crate) struct Pace {
    /// The moment from which a turn may do something by what the last one said, in ns of the run's clock; `NO_CLOCK` where
    /// it needs a request first.
    pub(crate) wakes: u64,
    /// Whether it makes no more turns.
    pub(crate) has_ended: bool,
    pub(crate) bus: BusUse,
}

/// The lesser of two moments, where the first is given.
pub(crate) fn least(other: Option<u64>, due: u64) -> u64
    ensures { result ≡ spec.least_of other due }
{
    match other {
        Some(other) => other.min(due),
        None => due,
    }
}

/// From when on a turn may do something after one that came to this, where an array is done early at the moment `ready`.
fn wake_after(progress: Progress, ready: Option<u64>) -> u64
    ensures { result ≡ spec.wakes_behind progress ready }
{
    match progress {
        Progress::Waits { until } => least(ready, until),
        Progress::Quiet => NO_CLOCK,
        _ => 0,
    }
}

impl Pace {
    /// A turn may do something at once, and no phase ran.
    pub(crate) fn new() -> Pace {
        Pace {
            wakes: 0,
            has_ended: false,
            bus: BusUse::new(),
        }
    }

    /// A request came.
    pub(crate) fn wake(&mut self)
        ensures { self.new ≡ record self.old { wakes = 0 } }
    {
        self.wakes = 0;
    }

    /// A turn at `now` came to this, after it the bus is free from `free` on and an array done early at `ready`, and it was
    /// the last one or not.
    pub(crate) fn turn(
        &mut self,
        now: u64,
        free: u64,
        ready: Option<u64>,
        progress: Progress,
        is_last: bool,
    )
        ensures { self.new ≡ spec.pace_behind now free ready progress is_last self.old }
    {
        self.wakes = wake_after(progress, ready);
        self.has_ended = is_last;
        self.bus.turn(now, free);
    }

    /// The moment from which a turn may do something, where the bus is free from `free` on; `NO_CLOCK` where there is none.
    pub(crate) fn due(&self, free: u64) -> u64
        ensures { result ≡ spec.due_of self.now free }
    {
        if self.has_ended {
            NO_CLOCK
        } else {
            self.wakes.max(free)
        }
    }
}
