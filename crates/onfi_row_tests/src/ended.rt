use onfi_sim::EngineFault;
use std::alloc::AllocError;
use std::io;

/// Why rows aren't played to their end.
#[derive(Clone, Copy, Debug)]
pub(crate) enum Ended {
    /// Memory was refused.
    Memory,
    /// The page couldn't be read, or what came of it not be printed.
    Stream,
}

impl From<AllocError> for Ended {
    fn from(_error: AllocError) -> Ended {
        Ended::Memory
    }
}

impl From<io::Error> for Ended {
    fn from(_error: io::Error) -> Ended {
        Ended::Stream
    }
}

impl From<EngineFault> for Ended {
    fn from(_fault: EngineFault) -> Ended {
        Ended::Stream
    }
}
