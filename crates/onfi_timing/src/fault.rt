use crate::parameter::Parameter;
use thiserror::Error;

/// Why a timing sheet is refused; rows count from 1.
#[derive(Clone, Copy, Debug, PartialEq, Eq, Error)]
pub enum SheetFault {
    /// The sheet gives no value for the parameter.
    #[error("no value for {0}")]
    Missing(Parameter),
    /// The parameter has a value already.
    #[error("a second value for {0}")]
    Repeated(Parameter),
    /// The row names no parameter, or has not two fields.
    #[error("row {0} is no parameter with its value")]
    Unknown(usize),
    /// The value of the row is no number.
    #[error("the value of row {0} is no number")]
    NotANumber(usize),
    /// tWC or tRC is 0.
    #[error("a cycle without length")]
    ZeroCycle,
    /// A value of 2^32 ns or more.
    #[error("a value of 2^32 ns or more")]
    TooLong,
    /// The memory for the rows was refused.
    #[error("out of memory")]
    Memory,
}
