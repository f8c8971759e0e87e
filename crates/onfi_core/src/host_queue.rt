ghost use Rattle.std.specs.Prelude.{◌≡◌, ◌<◌, ◌≤◌, ◌^◌, length, IfOk, MatchOption};
ghost use Rattle.std.specs.List.{AllByRecursion as Each};
ghost use Rattle.onfi_core.specs.Queues.{IsEmptyQueue};

use onfi_request::Reply;
use std::alloc::{AllocError, Global};
use std::collections::VecDeque;

/// A host sends at most this many items to a channel.
const SERIALS: u64 = 1 << 32;

/// What a channel keeps of one host.
#[derive(Drop)]
pub struct HostQueue {
    /// How many items the host sent, at most 2^32.
    pub sent: u64,
    /// Its completion queue: what was posted to it and is not collected, the oldest first.
    pub completions: VecDeque<Reply>,
}

impl HostQueue {
    /// The number of the host's next item; none once it sent 2^32.
    pub fn next_serial(&self) -> Option<u32>
        ensures { MatchOption result (2 ^ 32 ≤ self.now.sent) (λ serial. (serial ≡ self.now.sent) × (self.now.sent < 2 ^ 32)) }
    {
        if self.sent >= SERIALS {
            return None;
        }
        Some(self.sent as u32)
    }
}

/// A number of hosts that sent nothing, with room for a number of replies each.
///
/// # Errors
/// Where memory was refused.
pub fn host_queues(alloc: Global, count: u8, room: u16) -> Result<Vec<HostQueue>, AllocError>
    ensures count { IfOk result (λ hosts. length hosts.items ≡ count) }
    ensures empty { IfOk result (λ hosts. Each (IsEmptyQueue room) hosts.items) }
{
    let mut hosts = Vec::with_capacity(alloc, usize::from(count))?;
    for _host in 0..count {
        hosts.push(HostQueue {
            sent: 0,
            completions: VecDeque::with_capacity(alloc, usize::from(room))?,
        })?;
    }
    Ok(hosts)
}
