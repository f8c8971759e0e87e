//! The sequencer of a channel: one thread's loop between the channel's submission queue, its chip and its four completion
//! queues. Alone, it serves the hosts of one channel over one chip.
//!
//! A [`Sequencer`] holds the channel's half, its chip with the typed phases of its LUNs, the intake of the submission queue
//! and the posters of the four completion queues. Each [`Sequencer::turn`] does one thing, the first that it can, and says
//! why nothing earlier was done; [`Sequencer::turn_at`] does so for who has a clock. Hosts submit and collect from other
//! threads meanwhile; no lock stands round the channel.
//!
//! The typed phases of `onfi_lun` and the batch of `onfi_batch` are handed out from here too.
#![tactic(auto)]

mod clockless;
mod closed;
mod drained;
mod driver;
mod ends;
mod gate;
mod laws;
mod offer;
mod ran;
mod sequencer;
mod turn;

pub use closed::Closed;
pub use drained::{Drained, DrainedAt};
pub use ends::Ends;
pub use gate::Gate;
pub use laws::no_clock;
pub use onfi_batch::{BatchFault, run_batch};
pub use onfi_lun::{
    Commanded, Idle, Lanes, Lun, Phase, Posted, Posting, Queuing, Refused, Target, Working,
};
pub use sequencer::Sequencer;
pub use turn::{Turn, TurnAt};
