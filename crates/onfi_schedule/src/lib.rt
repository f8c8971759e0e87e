//! Schedules of a problem: which are legal and why one isn't, when they end, and how they are printed.
#![tactic(auto)]

mod block_order;
mod breach;
mod bus;
mod ending;
mod finding;
mod groups;
pub mod laws;
mod phase;
mod phase_name;
mod placed;
mod schedule;
mod shape;
mod since;
mod slot;
mod slots;
mod starts;
mod trace_line;
mod tracing;
mod turns;
mod waits;

pub use breach::{Breach, Difference};
pub use ending::finish;
pub use finding::{find_breach, legal};
pub use phase::Phase;
pub use phase_name::{Owner, Part, PhaseName};
pub use placed::Placed;
pub use schedule::{Schedule, no_starts};
pub use starts::Starts;
pub use trace_line::{LinePart, TraceLine};
pub use tracing::{trace, trace_requests, trace_text};
