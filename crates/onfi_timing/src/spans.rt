ghost use Rattle.std.specs.Prelude.{◌≡◌, ◌<◌, ◌≤◌, ◌^◌, ◌↔◌, ◌⊎◌, max, IfOk, IsErrOf};
ghost use Rattle.onfi_timing.specs.Lengths.{AreLengths};

use thiserror::Error;

/// Each length or wait is below this many ns.
const LIMIT: u64 = 1 << 50;

/// The lengths of a kind's phases and the waits between them, in ns, each below 2^50.
///
/// A group of k members runs k commands, then k posts on the bus (ONFI 4.2, multi-plane operations).
#[repr(C)]
#[derive(Clone, Copy, Debug, PartialEq, Eq)]
pub struct Spans {
    /// How long one command with its address and data holds the bus; at least 1.
    pub cmd: u64,
    /// The wait between two commands of a group.
    pub gap: u64,
    /// The wait between the last command and the first post.
    pub array: u64,
    /// How long one post, a data output or a status byte, holds the bus; at least 1.
    pub post: u64,
    pub ghost in_range: { AreLengths cmd gap array post },
}

/// Why four numbers are not the lengths of a kind.
#[derive(Clone, Copy, Debug, PartialEq, Eq, Error)]
pub enum SpanFault {
    /// The command or the post takes no time.
    #[error("a phase without length")]
    Zero,
    /// A length or a wait is 2^50 ns or more.
    #[error("a length or a wait of 2^50 ns or more")]
    TooLong,
}

impl Spans {
    /// The lengths of a kind, in ns.
    ///
    /// # Errors
    /// `Zero` where `cmd` or `post` is 0; else `TooLong` where one of the four is 2^50 or more.
    pub fn new(cmd: u64, gap: u64, array: u64, post: u64) -> Result<Spans, SpanFault>
        ensures ok { IfOk result (λ s. (s.cmd ≡ cmd) × (s.gap ≡ gap) × (s.array ≡ array) × (s.post ≡ post)) }
        ensures zero { IsErrOf result SpanFault.Zero ↔ ((cmd ≡ 0) ⊎ (post ≡ 0)) }
        ensures too_long { IsErrOf result SpanFault.TooLong ↔ ((1 ≤ cmd) × (1 ≤ post) × (2 ^ 50 ≤ max (max cmd gap) (max array post))) }
    {
        if cmd == 0 || post == 0 {
            return Err(SpanFault::Zero);
        }
        if cmd >= LIMIT || gap >= LIMIT || array >= LIMIT || post >= LIMIT {
            return Err(SpanFault::TooLong);
        }
        Ok(Spans {
            cmd,
            gap,
            array,
            post,
        })
    }
}
