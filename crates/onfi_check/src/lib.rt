//! Checks certificates: a yes means that the schedule is legal and no legal schedule of the problem ends sooner.
//!
//! A certificate is a tree over the moves of a problem; each leaf names a bound that reaches the schedule's finish, or
//! says that nothing is left to do. [`check`] reads its tokens and [`check_text`] its text, by one walk that makes moves
//! on one copy of the problem and takes them back. Who made the certificate need not be trusted.
#![tactic(auto)]

mod checking;
mod closes;
mod ends;
mod fault;
mod laws;
mod walk;
mod yields;

pub use checking::{check, check_text};
pub use closes::is_over;
pub use ends::last_ends;
pub use fault::{CertFault, TextFault};
pub use laws::{accepted_is_optimal, accepted_is_refused_for_memory_alone};
