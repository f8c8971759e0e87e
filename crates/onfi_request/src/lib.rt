//! What hosts ask of a channel and what they are answered, and the wants that a planning takes up. Alone, it checks
//! requests against a device's geometry.
#![tactic(auto)]

mod answer;
mod basis;
mod bytes;
mod checking;
mod fault;
mod part;
mod reply;
mod request;
mod want;

pub use answer::Answer;
pub use basis::Basis;
pub use bytes::Bytes;
pub use checking::{RequestFault, check};
pub use fault::Fault;
pub use part::{bytes_out, first_column, has_part};
pub use reply::Reply;
pub use request::{Item, Request};
pub use want::Want;
