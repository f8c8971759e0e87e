use onfi_cert::CertTextFault;
use std::fmt::Display;
use thiserror::Error;

/// Why a certificate doesn't show that no legal schedule ends sooner; places count tokens from 0.
#[derive(Clone, Copy, Debug, PartialEq, Eq, Error)]
pub enum CertFault {
    /// The schedule breaks a condition of legality.
    #[error("the schedule is illegal")]
    Illegal,
    /// The tokens end inside a tree.
    #[error("the tokens end too soon")]
    Short,
    /// A token stands after the tree.
    #[error("token {0} stands after the tree")]
    Trailing(usize),
    /// The branch has another width than there are moves, or there is no move.
    #[error("token {0} has another width than there are moves")]
    Width(usize),
    /// The bound doesn't reach the finish, or there is no such bound.
    #[error("the bound at token {0} doesn't reach the finish")]
    BoundLow(usize),
    /// A move of the LUN doesn't end by the earliest start of the move that yields to it, or there is none.
    #[error("the yield at token {0} doesn't fit")]
    YieldNoFit(usize),
    /// The move yields to its own LUN, to one that yields, or was yielded to.
    #[error("the yield at token {0} goes round")]
    YieldLoop(usize),
    /// Something is left to do, or less time has passed.
    #[error("token {0} isn't the end")]
    NotEnd(usize),
    /// The memory for the walk was refused.
    #[error("out of memory")]
    Memory,
}

/// Why the text of a certificate doesn't show that no legal schedule ends sooner. `Text` is reported first, then `Option`,
/// then `Cert`. Certificates of another kind have other faults `F` of tokens and `T` of texts.
#[derive(Clone, Copy, Debug, PartialEq, Eq, Error)]
#[error_bound(F: Display + Drop, T: Display + Drop)]
pub enum TextFault<F = CertFault, T = CertTextFault> {
    /// The text is no certificate.
    #[error("{0}")]
    Text(T),
    /// Its tokens don't show it, or the schedule is illegal, or memory was refused.
    #[error("{0}")]
    Cert(F),
    /// Its header names another option than the problem has.
    #[error("the header names another option than the problem has")]
    Option,
}
