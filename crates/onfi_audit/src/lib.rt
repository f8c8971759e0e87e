//! Logs of a channel's phases, of any length: whether each phase is legal after those before it, one at a time. Alone, it says
//! of a phase that isn't which condition it breaks, and from when on it could start.
#![tactic(auto)]

mod audit;
mod breach;
pub mod laws;
mod line;
mod luns;
mod requests;
mod stage;
mod waiting;

pub use audit::{AcceptFault, Audit};
pub use breach::LogBreach;
pub use line::Line;
pub use stage::LunStage;
