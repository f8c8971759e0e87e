/// A child that yields: the LUN of its move, the LUN that it yields to, and how long the longest first phase of that
/// LUN's moves lasts, in ns.
#[derive(Clone, Copy, Debug, Default, PartialEq, Eq)]
pub struct Given {
    pub own: u8,
    pub lun: u8,
    pub longest: u64,
}
