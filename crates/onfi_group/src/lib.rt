//! Groups: the wants that a LUN may run as one multi-plane operation (ONFI 4.2). Alone, it says whether wants are a
//! group under a device's rules, and lists the groups that a LUN's wants give.
#![tactic(auto)]

mod group;
mod lengths;
mod listing;
mod members;
mod rules;

pub use group::Group;
pub use lengths::{phase_length, posts_from, wait_before};
pub use listing::{candidates, startable};
pub use members::is_group;
pub use rules::Rules;
