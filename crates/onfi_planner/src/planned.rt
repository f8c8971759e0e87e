use onfi_cert::Token;
use onfi_schedule::Schedule;

/// A schedule of a problem that ends first, and what shows it.
#[derive(Drop)]
pub struct Planned {
    /// For each LUN the starts of the phases that are left of its running group, and the new groups by rising first
    /// start; in ns of the channel's clock.
    pub schedule: Schedule,
    /// When the last phase ends, in ns; where no phase is left, from when on the bus is free.
    pub finish: u64,
    /// The tokens of the certificate.
    pub cert: Vec<Token>,
}

/// A plan, and what its search cost.
#[derive(Drop)]
pub struct Counted {
    pub planned: Planned,
    /// How many nodes the search opened, at least one.
    pub opened: u32,
}
