use thiserror::Error;

/// Why a chip call failed.
#[derive(Clone, Copy, Debug, PartialEq, Eq, Error)]
pub enum ChipFault {
    /// The bus failed: nothing more is known of the chip.
    #[error("the bus failed")]
    Bus,
    /// Memory was refused: the chip is unchanged.
    #[error("out of memory")]
    Memory,
}

/// Why a post gave no answer.
#[derive(Clone, Copy, Debug, PartialEq, Eq, Error)]
pub enum PostFault {
    /// The bus failed: nothing more is known of the chip.
    #[error("the bus failed")]
    Bus,
    /// The status said that the LUN isn't ready: nothing more is known of the chip.
    #[error("the LUN is not ready")]
    NotReady,
}
