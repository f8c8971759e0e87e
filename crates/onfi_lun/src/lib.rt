//! A channel's LUNs driven in typed phases: a group's commands, its array time, its posts. Each move takes its LUN by
//! value, so that what a LUN isn't ready for cannot be written. Alone, it drives a chip through one group, or runs a phase
//! that is due on its LUN: a command, a data output or a status.
#![tactic(auto)]

mod commanding;
mod drive;
mod fault;
mod lanes;
mod lun;
mod phase_result;
mod posting;
mod states;
mod target;

pub use drive::DriveFault;
pub use fault::Refused;
pub use lanes::Lanes;
pub use lun::{Commanded, Lun, Posted};
pub use phase_result::PhaseResult;
pub use states::{Idle, Phase, Posting, Queuing, Working};
pub use target::Target;
