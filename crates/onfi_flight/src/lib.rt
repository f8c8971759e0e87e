//! Flights: what is left of a plan, with the channel as it stands. Alone, it says which phase of a plan is due, whether that
//! phase may run, and what it leaves; and what stays of the plan where the bus waits, a phase is late or a LUN is ready sooner.
//! It judges one phase at a time, and takes no memory.
#![tactic(auto)]

mod due;
mod flight;
mod lag;
mod later;
pub mod laws;
mod luns;
mod startable;
mod turn;

pub use due::Due;
pub use flight::{Flight, Next, TooLate, wants_of};
pub use startable::is_startable;
