/// What a split search reports of its parts.
pub trait PartGate {
    /// Called before the first node of the part of this number is opened, by the worker that searches it. It may hold
    /// the worker up, and changes nothing that the search sees.
    fn before(&self, part: usize);
}

/// Holds no part up.
#[derive(Clone, Copy, Debug, Default)]
pub struct NoGate;

impl PartGate for NoGate {
    fn before(&self, _part: usize) {}
}
