//! The tokens of a certificate that remembers states.

use onfi_cert::{LineTokens, LunNumber, Width};

/// How many nodes are remembered at most; greater numbers aren't spelled.
pub const MOST_KNOWN: u32 = 1_048_576;

/// One token of a certificate that remembers states.
///
/// A certificate is a tree over the moves of a problem, in preorder; each of its leaves says why no schedule through
/// that node ends sooner.
#[derive(Clone, Copy, Debug, PartialEq, Eq)]
pub enum Token {
    /// `B1` to `B99`: a node with that number of moves; a child for each follows, in the order of the moves.
    Branch(Width),
    /// `U`: the bound by the bus closes the node.
    Bus,
    /// `L`: the bound by the first post closes it.
    Lead,
    /// `T`: the bound by the last array time closes it.
    Trail,
    /// `D0` to `D7`: the bound by this LUN closes it.
    Die(LunNumber),
    /// `Y0` to `Y7`: this move need not be tried, since a move of this LUN fits before it.
    Yield(LunNumber),
    /// `X`: nothing is left to do.
    End,
    /// `W<start>,<tail>`: the window bound closes it, of phases that start at `start` or later and end at least `tail`
    /// before the finish, both in ns.
    Window { start: u64, tail: u64 },
    /// `R<number>`: the open node that ended as that number closes it, counted from 0.
    Again(u32),
}

/// A reader that gives the tokens after a header one by one, without memory.
pub type Tokens<'a> = LineTokens<'a, Token>;
