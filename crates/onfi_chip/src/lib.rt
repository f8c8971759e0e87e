//! A chip as a sequencer drives it: commands, data outputs and statuses of groups on its LUNs, and what they do to its
//! blocks. Alone, it gives a simulated chip with failing dies and a failing bus.
#![tactic(auto)]

mod array_time;
mod arrays;
mod chip;
mod closer;
mod dies;
mod fault;
mod fetch;
mod lane;
mod launching;
mod laws;
mod member;
mod numbered;
mod post;
mod reading;
mod sim;
mod status;
mod wait;

pub use array_time::ArrayTime;
pub use chip::Chip;
pub use closer::Closer;
pub use fault::{ChipFault, PostFault};
pub use fetch::Fetch;
pub use laws::posts_are_alone;
pub use post::Post;
pub use reading::read_post;
pub use sim::SimChip;
pub use status::decode_status;
