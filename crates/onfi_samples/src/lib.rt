//! One small device for the tests of all crates, and what is asked of it: its geometry, its timing, requests and wants.
//!
//! It has 512 + 16 bytes a page, 64 pages a block that are programmed in order, 1,000 blocks a LUN and 2 LUNs of 2 planes,
//! and groups of all kinds.
#![tactic(auto)]

mod device;
mod request;
mod want;

pub use device::{sample_geometry, sample_timing};
pub use request::request_of;
pub use want::want_of;
