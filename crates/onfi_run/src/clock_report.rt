use crate::bus_use::BusUse;
use crate::latency::Latency;

/// What a clock showed of a run.
#[derive(Drop)]
pub struct ClockReport {
    /// How busy the bus of each channel was.
    pub buses: Vec<BusUse>,
    /// How long the operations of each kind took; nothing of one without replies.
    pub reads: Option<Latency>,
    pub programs: Option<Latency>,
    pub erases: Option<Latency>,
}
