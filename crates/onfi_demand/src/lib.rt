//! Demands: from a problem that can't end before a finish, how late any problem with the same left must go on to share
//! that. A search or a checker can so close a node by another one that it has done with.
#![tactic(auto)]

mod asked;
mod closings;
mod demand;
mod group_lengths;
pub mod laws;
mod lead;
mod left;
mod lengths;
mod look;

pub use asked::Step;
pub use demand::Demand;
pub use group_lengths::GroupLengths;
pub use left::{LunLeft, LunWork, has_left, left_on};
pub use look::Window;
