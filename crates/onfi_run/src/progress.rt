use onfi_core::Cause;

/// What a turn of a channel came to, as far as its thread goes on by it.
#[derive(Clone, Copy)]
pub enum Progress {
    /// A phase ran, or there is a new plan.
    Advanced,
    /// A reply was posted or an item accepted; or a planning was over, and a phase is left.
    Moved,
    /// The next phase starts then, after the moment of the turn; a run without a clock has none such.
    Waits { until: u64 },
    /// Nothing is left to do but to post to full queues.
    Quiet,
    /// Memory was refused, and a phase is left.
    Refused,
    /// Memory was refused, and no phase is left.
    Starved,
    /// The channel stopped.
    Stopped(Cause),
    /// A planning opened as many nodes as it may and wasn't over, and no phase is left.
    Over { opened: u32 },
}
