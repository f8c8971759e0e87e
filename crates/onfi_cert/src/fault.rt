//! Why a text is no certificate.

use thiserror::Error;

/// Why a text is no certificate, or why a list of tokens has no text, in the order in which they are reported.
#[derive(Clone, Copy, Debug, PartialEq, Eq, Error)]
pub enum CertTextFault {
    /// The text begins with neither header line.
    #[error("the header line is none of a certificate")]
    Header,
    /// No token stands at this place, counted from 0; or that many good tokens stand there and the text does not end
    /// with one LF after them.
    #[error("no token at place {0}")]
    BadToken(u32),
    /// A space follows the last token that a text may have.
    #[error("more than 100,000,000 tokens")]
    TooLong,
    /// The allocator refused a growth.
    #[error("out of memory")]
    Memory,
}

/// Why the bytes after a header are no line of tokens of a kind.
#[derive(Clone, Copy)]
pub enum LineFault {
    /// No token stands at this place, counted from 0; or that many good tokens stand there and the line does not end
    /// with one LF after them.
    BadToken(usize),
    /// A space follows the last token that a line may have.
    TooLong,
}
