use crate::fault::SheetFault;
use crate::strobe::Strobe;
use thiserror::Error;

/// Why strobes are refused, or a timing by them; rows count from 1.
#[derive(Clone, Copy, Debug, PartialEq, Eq, Error)]
pub enum StrobeFault {
    /// The timing sheet beside the strobes is refused.
    #[error("{0}")]
    Sheet(SheetFault),
    /// No value for the parameter.
    #[error("no value for {0} of the strobes")]
    Missing(Strobe),
    /// The parameter has a value already.
    #[error("a second value for {0} of the strobes")]
    Repeated(Strobe),
    /// The row names no parameter of strobes, or has not two fields.
    #[error("row {0} is no parameter of strobes with its value")]
    Unknown(usize),
    /// The value of the row is no number.
    #[error("the value of row {0} of the strobes is no number")]
    NotANumber(usize),
    /// tRC or tDSC is 0.
    #[error("a cycle of the strobes without length")]
    ZeroCycle,
    /// A value of 2^32 ps or more.
    #[error("a value of 2^32 ps or more")]
    TooLong,
    /// The memory for the rows was refused.
    #[error("out of memory")]
    Memory,
}
