//! What the dies of a channel do: the contents of blocks under reads, programs and erases, and from them the answer
//! that each request of an accepted list is owed. Alone, it is a model of a NAND block with failing programs and erases.
#![tactic(auto)]

mod block;
mod changes;
mod kept;
mod laws;
mod page;
mod pages;
mod prepared;
mod shape;
mod store;
mod total;

pub use block::Block;
pub use laws::{blocks_are_apart, order_keeps_the_rule, rightful_stays};
pub use onfi_request::Fault;
pub use page::Page;
pub use prepared::Prepared;
pub use shape::Shape;
pub use store::Store;
pub use total::Total;
