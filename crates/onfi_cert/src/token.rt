//! The tokens of a certificate.

use crate::lun_number::LunNumber;
use crate::width::Width;

/// One token of a certificate.
///
/// A certificate is a tree over the moves of a problem, in preorder; each of its leaves says why no schedule through
/// that node ends sooner.
#[derive(Clone, Copy, Debug, PartialEq, Eq)]
pub enum Token {
    /// `B1` to `B99`: a node with that number of moves; a child for each follows, in the order of the moves.
    Branch(Width),
    /// `U`: the bound by the bus closes the node.
    Bus,
    /// `L`: the bound by the first post closes it.
    Lead,
    /// `T`: the bound by the last array time closes it.
    Trail,
    /// `D0` to `D7`: the bound by this LUN closes it.
    Die(LunNumber),
    /// `Y0` to `Y7`: this move need not be tried, since a move of this LUN fits before it.
    Yield(LunNumber),
    /// `X`: nothing is left to do.
    End,
}
