use onfi_core::Cause;

/// How the draining of a channel ended.
#[derive(Clone, Copy, Debug, PartialEq, Eq)]
pub enum Drained {
    /// All that the hosts sent is accepted, and each accepted item has its reply posted.
    Empty,
    /// The turns that it was given were made, and not all is accepted and answered.
    TurnsSpent,
    /// The channel stopped.
    Stopped(Cause),
    /// A planning opened as many nodes as it may and wasn't over, and no phase is left.
    Over { opened: u32 },
    /// Memory was refused, to a planning with no phase left or to a taking in.
    Memory,
}

/// How the draining of a channel at a moment ended: as [`Drained`], and it may be that the next phase isn't due.
#[derive(Clone, Copy, Debug, PartialEq, Eq)]
pub enum DrainedAt {
    /// All that the hosts sent is accepted, and each accepted item has its reply posted.
    Empty,
    /// The turns that it was given were made, and not all is accepted and answered.
    TurnsSpent,
    /// The channel stopped.
    Stopped(Cause),
    /// A planning opened as many nodes as it may and wasn't over, and no phase is left.
    Over { opened: u32 },
    /// Memory was refused, to a planning with no phase left or to a taking in.
    Memory,
    /// The next phase starts then, after the moment of the draining, in ns of the channel's clock.
    Waits { until: u64 },
}
