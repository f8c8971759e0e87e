use std::alloc::AllocError;
use std::io;

/// Why a trial ends before its last call.
#[derive(Clone, Copy, Debug, PartialEq, Eq)]
pub(crate) enum Ended {
    /// A call answered Memory twice, or what it begins with couldn't be made.
    Memory,
    /// There is no such trial.
    NoTrial,
    /// An answer couldn't be printed.
    Write,
}

impl From<AllocError> for Ended {
    fn from(_error: AllocError) -> Ended {
        Ended::Memory
    }
}

impl From<io::Error> for Ended {
    fn from(_error: io::Error) -> Ended {
        Ended::Write
    }
}
