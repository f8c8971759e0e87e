//! A chip that keeps what its bus carries, as lines of a trace.
#![tactic(auto)]

mod bus_log;
mod recorder;

pub use bus_log::BusLog;
pub use recorder::Recorder;
