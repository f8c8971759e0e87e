//! The geometry of an ONFI device and the row addresses of its pages.
//!
//! [`Geometry::of`] takes the counts and the cycles from a parameter page, or says why the device can't be driven; a
//! [`Geometry`] then turns a [`Place`] (LUN, block, page) into the row address that commands carry and back, and says on
//! which plane a block lies. No call takes memory.
#![tactic(auto)]

mod bits;
mod fault;
mod geometry;
mod judging;
mod place;
mod plane;

pub use fault::GeometryFault;
pub use geometry::Geometry;
pub use place::Place;
pub use plane::plane_at;
