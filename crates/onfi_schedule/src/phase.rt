ghost use Rattle.std.specs.Prelude.{◌≤◌, ◌↔◌, IsTrue};
ghost use Rattle.onfi_schedule.specs.Schedule.{end_of, Apart};

/// One use of the bus: a command with its address and data, or a post.
#[derive(Clone, Copy, Debug, Default, PartialEq, Eq)]
pub struct Phase {
    /// The LUN, from 0.
    pub lun: u8,
    /// When it starts, in ns of the channel's clock.
    pub start: u64,
    /// How long it holds the bus, in ns.
    pub length: u64,
}

impl Phase {
    /// Whether it has ended at that time, in ns.
    pub fn ends_by(&self, time: u64) -> bool
        ensures { IsTrue result ↔ (end_of self.now ≤ time) }
    {
        self.start <= time && self.length <= time - self.start
    }

    /// Whether the two don't overlap.
    pub fn is_apart(&self, other: &Phase) -> bool
        ensures { IsTrue result ↔ Apart self.now other.now }
    {
        self.ends_by(other.start) || other.ends_by(self.start)
    }
}
