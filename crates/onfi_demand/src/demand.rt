/// How late a problem must go on at the least, in ns of the channel's clock; 0 asks for nothing.
#[derive(Clone, Copy, Debug, PartialEq, Eq)]
pub struct Demand {
    /// From when on the bus is free.
    pub bus: u64,
    /// From when on each LUN with something left may go on.
    pub luns: [u64; 8],
}
