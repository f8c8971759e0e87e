use thiserror::Error;

/// Why a request isn't accepted.
#[derive(Clone, Copy, Debug, PartialEq, Eq, Error)]
pub enum AcceptFault {
    /// The channel has no such LUN.
    #[error("the channel has no such LUN")]
    BadLun,
    /// 64 requests wait for the LUN.
    #[error("64 requests wait for the LUN")]
    Full,
    /// Its number isn't above that of the last request that waits for the LUN.
    #[error("its number isn't above that of the last request that waits for the LUN")]
    BadOrder,
    /// A request of that number waits for the LUN.
    #[error("a request of that number waits for the LUN")]
    Waits,
}

/// Why no phase ran.
#[derive(Clone, Copy, Debug, PartialEq, Eq, Error)]
pub enum RanFault {
    /// No phase was given, or something changed after it.
    #[error("no phase is due")]
    NothingDue,
    /// The phase may not start so soon.
    #[error("the phase may not start so soon")]
    TooSoon,
    /// The moment is 2^62 ns or later.
    #[error("the moment is 2^62 ns or later")]
    TooLate,
}

/// Why a LUN isn't found ready.
#[derive(Clone, Copy, Debug, PartialEq, Eq, Error)]
pub enum ReadyFault {
    /// The channel has no such LUN.
    #[error("the channel has no such LUN")]
    BadLun,
    /// Its array doesn't work.
    #[error("the array of the LUN doesn't work")]
    NotInArray,
}
