//! What a walk keeps beside the best schedule.

ghost use Rattle.std.specs.Prelude.{◌≡◌, ◌≤◌, false, []};

use crate::cert::Cert;
use crate::phases::Phases;
use crate::records::Records;
use onfi_planner::Limit;
use std::alloc::Global;

/// What a walk over the tree of a problem keeps: the tokens so far, how many nodes it opened and may open, and the nodes
/// that it is done with.
#[derive(Drop)]
pub struct Notes {
    pub cert: Cert,
    pub opened: u32,
    pub limit: u32,
    /// Whether it met more nodes than it may open.
    pub cut: bool,
    pub records: Records,
    pub phases: Phases,
}

impl Notes {
    /// Before the first node of a walk for a finish, in ns, that may open so many.
    pub fn new(alloc: Global, finish: u64, limit: Limit) -> Notes
        ensures finish { result.cert.finish ≡ finish }
        ensures tokens { result.cert.tokens.items ≡ [] }
        ensures opened { result.opened ≡ 0 }
        ensures limit { result.limit ≡ limit }
        ensures few { limit ≤ 1048576 }
        ensures uncut { result.cut ≡ false }
        ensures none { result.records.nodes.items ≡ [] }
    {
        Notes {
            cert: Cert::new(alloc, finish),
            opened: 0,
            limit: limit.get(),
            cut: false,
            records: Records::new(alloc),
            phases: Phases::new(alloc),
        }
    }
}
