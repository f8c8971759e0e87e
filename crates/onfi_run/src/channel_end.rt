use onfi_core::Cause;

/// How a channel ended.
#[derive(Clone, Copy)]
pub enum ChannelEnd {
    /// Everything that was sent to it is answered.
    Done,
    /// It stopped.
    Stopped(Cause),
    /// A planning opened as many nodes as it may and wasn't over, with no phase left.
    Over { opened: u32 },
    /// Its last turns were spent before it was done.
    Unfinished,
}
