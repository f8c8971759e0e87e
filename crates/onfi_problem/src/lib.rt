//! Problems of one channel: what is left to do, which moves there are, when at the earliest, and what each leaves.
//!
//! Alone, it says whether wants and running groups are a problem at all, lists what may be done next in a fixed order,
//! and makes moves and takes them back in place, without memory: the ground for a search or a checker of one's own.
#![tactic(auto)]

mod checks;
mod ends;
mod fault;
mod finding;
mod horizon;
mod lun_state;
mod move_list;
mod moves;
mod problem;
mod start_marks;
mod table;

pub use fault::ProblemFault;
pub use finding::find_fault;
pub use lun_state::LunState;
pub use move_list::Moves;
pub use moves::{Lun, Move, Undo};
pub use problem::Problem;
