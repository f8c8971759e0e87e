//! Plans batches by a search that remembers states: within its limit the schedule that no legal schedule beats, else the best
//! that it has found, with a certificate of the kind that `onfi_known_check` checks.
//!
//! A node that was searched is remembered with what it asks of any other with the same left, and closes each such node.
//! So batches are answered that a plain search gives up, with certificates of some kilobytes.
#![tactic(auto)]

mod cert;
mod choosing;
mod closing;
mod gap;
mod guessed;
mod notes;
mod phases;
mod planning;
mod records;
mod search;
mod sought;
mod standing;
mod within;
mod yields;

pub use within::plan_within;
