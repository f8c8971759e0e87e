use thiserror::Error;

/// Why bytes hold no parameter page, in the order in which it is reported.
#[derive(Clone, Copy, Debug, PartialEq, Eq, Error)]
pub enum PageFault {
    #[error("fewer than 256 bytes")]
    Short,
    #[error("no copy has two signature bytes and the right check value")]
    NoCopy,
}
