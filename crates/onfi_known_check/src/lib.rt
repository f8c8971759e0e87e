//! Checks certificates that remember states: a yes means that the schedule is legal and no legal schedule of the
//! problem ends sooner.
//!
//! Beside the tokens of a plain certificate there are two: `W` closes a node by the window bound, and `R` closes it by
//! an open node that was read before, to which the same was left and of which no more was asked than the node meets.
//! Who made the certificate need not be trusted.
#![tactic(auto)]

mod checking;
mod closes;
mod fault;
mod given;
mod header;
mod known;
pub mod laws;
mod standing;
mod token;
mod walk;
mod word;
mod writing;

pub use checking::{check_known_text, check_known_within};
pub use fault::{KnownFault, KnownTextFault};
pub use given::Given;
pub use known::Known;
pub use standing::step_after;
pub use token::{MOST_KNOWN, Token, Tokens};
pub use writing::text_of;
