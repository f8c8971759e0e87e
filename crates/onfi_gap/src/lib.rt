//! How far a log is from the best: a legal log is cut into pieces of at most eight requests, each piece is planned anew from the
//! channel's state at its beginning, and stands beside when a plan ends it and what nothing ends before; and of the log as a whole
//! what no schedule of its requests passes. Alone, it judges a log and measures it, and spells what it found.
#![tactic(auto)]

mod cut;
mod finding;
mod notes;
mod piece;
mod planning;
mod summary;
mod walk;
mod whole;
mod writing;

pub use finding::{Gaps, find_gaps};
pub use piece::Piece;
pub use summary::{Summary, mean, summarize};
pub use whole::LogBound;
pub use writing::write_gaps;
