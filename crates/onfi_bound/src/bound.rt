/// One of the bounds, in the order in which they are tried.
#[derive(Clone, Copy, Debug, PartialEq, Eq)]
pub enum Bound {
    /// What is left takes the bus one phase after another.
    Bus,
    /// All posts come after the first one.
    Lead,
    /// After the last command come its array and a post.
    Trail,
    /// The LUN of that number does all that is left to it, one group after another.
    Die(u8),
}

/// A bound, and what it comes to, in ns.
#[derive(Clone, Copy, Debug, PartialEq, Eq)]
pub struct BoundAt {
    pub bound: Bound,
    pub at: u64,
}
