//! Why a command line is not taken.
use thiserror::Error;

/// Why a command line is not taken.
#[derive(Clone, Copy, Debug, PartialEq, Eq, Error)]
pub enum WordsFault {
    /// It is not one of this program, or asks for help or for the version.
    #[error("the command line is refused")]
    Refused,
    /// Memory was refused.
    #[error("memory was refused")]
    Memory,
}

/// The same, with what the program says of it.
#[derive(Debug, Drop)]
pub enum Untaken {
    /// It is not one of this program, or asks for help: the message about it.
    Refused(String),
    /// Memory was refused.
    Memory,
    /// It asks for the version: the line that gives it.
    Version(String),
}
