//! A batch on a chip: a legal schedule of its items driven phase by phase, each by the move of its LUN, and a reply for each
//! item. Alone, it runs up to eight items on a chip as it opened.
#![tactic(auto)]

mod batch;
mod course;
mod fault;

pub use batch::run_batch;
pub use fault::BatchFault;
