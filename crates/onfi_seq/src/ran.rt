use onfi_core::Cause;

/// What the next phase came to.
#[derive(Clone, Copy)]
pub(crate) enum Ran {
    /// It started then, in ns of the channel's clock.
    Phase { start: u64 },
    /// The channel stopped, now or earlier.
    Stopped(Cause),
    /// Memory was refused: nothing happened.
    Memory,
    /// It starts then, after the moment up to which phases may run, in ns of the channel's clock: nothing happened.
    NotBefore { start: u64 },
    /// No phase is left.
    NoPhase,
}
