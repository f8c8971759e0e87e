use onfi_check::CertFault;
use thiserror::Error;

/// Why a certificate that remembers states doesn't show that no legal schedule ends before a number, for a schedule that ends
/// then or later; places count tokens from 0.
#[derive(Clone, Copy, Debug, PartialEq, Eq, Error)]
pub enum KnownFault {
    /// What a plain certificate may be refused for too: `BoundLow` also of a window within which no phase is.
    #[error("{0}")]
    Cert(CertFault),
    /// No open node has ended as that number.
    #[error("token {0} names no node that was read")]
    Unknown(usize),
    /// Something else is left there than at the node that is named.
    #[error("token {0} names a node with something else left")]
    OtherLeft(usize),
    /// A LUN with something left may go on sooner than the node that is named asks for.
    #[error("token {0} names a node that asks for more")]
    Sooner(usize),
    /// There are more open nodes than are remembered.
    #[error("token {0} opens one node too many")]
    TooMany(usize),
    /// The schedule ends before the number. Faults of the text and an illegal schedule are reported before, all else after it.
    #[error("the schedule ends before the number that none is to end before")]
    Above,
}

/// Why a text is no certificate that remembers states, in the order in which they are reported.
#[derive(Clone, Copy, Debug, PartialEq, Eq, Error)]
pub enum KnownTextFault {
    /// The text begins with neither header line.
    #[error("the header line is none of a certificate that remembers states")]
    Header,
    /// No token stands at this place, counted from 0; or that many good tokens stand there and the text doesn't end with
    /// one LF after them.
    #[error("no token at place {0}")]
    BadToken(usize),
}
