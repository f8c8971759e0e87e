use thiserror::Error;

/// Why a phase of a log may not come next; its text is one sentence. Requests go by their numbers, LUNs from 0, times are ns of the
/// channel's clock.
#[derive(Clone, Copy, Debug, PartialEq, Eq, Error)]
pub enum LogBreach {
    /// It starts at 2^62 ns or later: past what is judged.
    #[error("a phase that starts at 2^62 ns or later isn't judged")]
    TooLate,
    /// The channel has no such LUN.
    #[error("LUN {lun} isn't there")]
    NoLun {
        lun: u8,
    },
    /// A post, while the LUN runs nothing.
    #[error("LUN {lun} has no post left: nothing runs on it")]
    NothingRuns {
        lun: u8,
    },
    /// The LUN's group has another phase next: the command or the post of that block and page.
    #[error("LUN {lun} has another phase next, of block {block}, page {page}")]
    OtherPhase {
        lun: u8,
        is_post: bool,
        block: u16,
        page: u16,
    },
    /// A command of a request that isn't accepted, or that began before.
    #[error("no such request waits for block {block} of LUN {lun}")]
    UnknownRequest {
        lun: u8,
        block: u16,
    },
    /// Of two requests on one block the later begins while the earlier waits.
    #[error("request {later} begins before request {earlier}, which comes first on the same block")]
    BlockOrder {
        earlier: u64,
        later: u64,
    },
    /// A command on a LUN that has given commands and no post yet, of a request that makes no group with those.
    #[error("request {request} can't be grouped with request {first}, which its LUN runs")]
    NotGrouped {
        first: u64,
        request: u64,
    },
    /// It starts while the phase before it, or what came before the log, holds the bus.
    #[error("a phase starts at {start} ns; the bus is free from {bus_free} ns")]
    BusNotFree {
        start: u64,
        bus_free: u64,
    },
    /// A group starts before its LUN is free.
    #[error("a phase starts at {start} ns; its LUN {lun} is free from {since} ns")]
    LunNotFree {
        lun: u8,
        start: u64,
        since: u64,
    },
    /// A further phase of a group starts before the wait after the one before it is over.
    #[error("a phase starts at {start} ns; its LUN {lun} is ready from {ready} ns")]
    NotReady {
        lun: u8,
        start: u64,
        ready: u64,
    },
}
