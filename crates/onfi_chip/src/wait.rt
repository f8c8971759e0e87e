ghost use Rattle.std.specs.Prelude.{◌≡◌, min, nat_le};
ghost use Rattle.onfi_chip.specs.Sim.{over_at};
ghost use Rattle.onfi_chip.specs.Arrays.{over_behind};

/// A wait: it is over `length` ns after the moment `from`.
#[derive(Clone, Copy, Debug)]
pub struct Wait {
    pub from: u64,
    pub length: u64,
}

impl Wait {
    /// Whether it is over at `now`.
    pub(crate) fn is_over(&self, now: u64) -> bool
        ensures { result ≡ nat_le (over_at self.now) now }
    {
        now >= self.from && now - self.from >= self.length
    }

    /// When it is over, where that is after `now` and a moment.
    pub(crate) fn end_after(&self, now: u64) -> Option<u64>
        ensures { result ≡ over_behind now self.now }
    {
        let over = self.from.checked_add(self.length)?;
        if over > now { Some(over) } else { None }
    }

    /// The same, but over at `now` at the latest.
    pub(crate) fn cut_at(self, now: u64) -> Wait
        ensures { over_at result ≡ min (over_at self) now }
    {
        if self.is_over(now) {
            self
        } else {
            Wait {
                from: now,
                length: 0,
            }
        }
    }
}
