//! The submission queue of a channel: four hosts put requests in, each from a thread of its own, and one intake takes
//! them out. Alone, it gives a bounded queue whose contracts say what each host sent and what was accepted of it.
//!
//! A [`Host`] and the [`Intake`] can't be cloned: each holds its pass of the queue, and `&mut self` keeps its calls in
//! one thread at a time. A submission that succeeds is one push, an acceptance one pop, and nothing else changes what
//! the queue holds. No lock stands round it. No contract says that a call of [`Host::submit`] or [`Intake::accept`]
//! returns, nor that what waits is ever accepted, nor whose item comes first.
#![tactic(auto)]

mod fault;
mod host;
mod intake;
mod opened;
mod opening;
mod rule;
mod seat;
mod view;

pub use fault::SubmitFault;
pub use host::Host;
pub use intake::Intake;
pub use opened::Opened;
pub use opening::open;
