//! How busy the bus of a channel was.
ghost use Rattle.std.specs.Prelude.{◌≡◌};
ghost use Rattle.onfi_run.specs.Pace.{bus_behind};

/// How busy the bus of a channel was, in ns of the run's clock.
#[derive(Clone, Copy)]
pub struct BusUse {
    /// How long phases kept it busy.
    pub busy: u64,
    /// When the last phase ended; 0 where none ran.
    pub until: u64,
}

impl BusUse {
    /// No phase ran.
    pub(crate) fn new() -> BusUse {
        BusUse { busy: 0, until: 0 }
    }

    /// A turn was made at `now`, and after it the bus is free from `free` on: where that is later, a phase keeps it busy
    /// until then.
    pub(crate) fn turn(&mut self, now: u64, free: u64)
        ensures { self.new ≡ bus_behind now free self.old }
    {
        if free > now {
            self.busy = self.busy.saturating_add(free - now);
            self.until = free;
        }
    }
}
