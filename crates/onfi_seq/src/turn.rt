use onfi_core::Cause;

/// What a turn came to: the first of these that could be done.
#[derive(Clone, Copy, Debug, PartialEq, Eq)]
pub enum Turn {
    /// A reply was posted: the oldest that is held for the lowest host whose completion queue wasn't full.
    Posted,
    /// The channel stopped, now or earlier: it accepts, plans and runs no more.
    Stopped(Cause),
    /// The next phase ran.
    Phase,
    /// An item was accepted.
    Accepted,
    /// There is a new plan.
    Planned,
    /// The planning opened as many nodes as it may and isn't over; the old plan stands.
    Over { opened: u32 },
    /// Memory was refused, to a planning or a phase; the old plan stands, and the chip wasn't called.
    Memory,
    /// Nothing is left to do but to post replies to hosts whose completion queues are full.
    PostFull,
    /// Nothing is left to do.
    Idle,
}

/// What a turn at a moment came to: as [`Turn`], and it may be that the next phase isn't due.
#[derive(Clone, Copy, Debug, PartialEq, Eq)]
pub enum TurnAt {
    /// A reply was posted: the oldest that is held for the lowest host whose completion queue wasn't full.
    Posted,
    /// The channel stopped, now or earlier: it accepts, plans and runs no more.
    Stopped(Cause),
    /// The next phase ran.
    Phase,
    /// An item was accepted.
    Accepted,
    /// There is a new plan.
    Planned,
    /// The planning opened as many nodes as it may and isn't over; the old plan stands.
    Over { opened: u32 },
    /// Memory was refused, to a planning or a phase; the old plan stands, and the chip wasn't called.
    Memory,
    /// Nothing is left to do but to post replies to hosts whose completion queues are full.
    PostFull,
    /// Nothing is left to do.
    Idle,
    /// The next phase starts then, after the moment of the turn, in ns of the channel's clock: until then, or until a request
    /// comes or a LUN is ready, there is nothing to do.
    Waits { until: u64 },
}
