//! Lower bounds: four numbers that no legal schedule of a problem ends before. Alone, it says how soon a problem may
//! be done at best, and which bound lets a search stop.
#![tactic(auto)]

mod bound;
mod bounds;
mod chain;
mod commands;
pub mod laws;
mod left;
mod load;
mod loads;
mod node;
mod operations;
mod posts;
mod reaching;
mod tally;
mod waits;

pub use bound::{Bound, BoundAt};
pub use bounds::{bus, die, lead, trail};
pub use commands::Commands;
pub use load::Load;
pub use loads::Loads;
pub use node::{NodeBounds, bus_after};
pub use reaching::{closing, reaches};
