use onfi_request::{Reply, Request, RequestFault};

/// What an event came to. From `SubmitFull` on, save `Waited` and `ReadyFrom`, it is refused: the state is unchanged, save
/// that a stop cause stays.
#[derive(Debug, Drop)]
pub enum Outcome {
    /// The item has this serial among those that the host sent to the channel, from 0.
    Submitted(u32),
    /// The item has this place in the channel's accepted list, from 0.
    Accepted(u64),
    /// There is a plan with this finish, in ns of the channel's clock.
    Planned(u64),
    /// The phase has this start, in ns of the channel's clock.
    Phase(u64),
    /// The reply to the item at this place was posted.
    Posted(u64),
    /// The host has this reply.
    Collected(Reply),
    /// The submission queue is full; the request comes back.
    SubmitFull(Request),
    /// Nothing waits to be accepted.
    NothingToAccept,
    /// No phase of a plan is left.
    NoPlan,
    /// The host's completion queue is full.
    PostFull,
    /// Nothing that was posted to the host is uncollected.
    NothingToCollect,
    /// The channel stopped, now or earlier: it accepts, plans and runs no more.
    Stopped(Cause),
    /// The planning opened as many nodes as it may and isn't over; the old plan stands.
    Over { opened: u32 },
    /// A growth was refused, at a planning or a bus phase: no request comes back, since no submission answers this.
    Memory(Option<Request>),
    /// The device doesn't take the request; it comes back.
    Refused(RequestFault, Request),
    /// The host has sent 2^32 items to the channel; the request comes back.
    SerialsSpent(Request),
    /// 64 accepted items have no posted reply.
    WindowFull,
    /// No accepted item is unplanned, or the wants not started fill the batch; and no time passed since the plan was made,
    /// or no phase of it is left.
    NothingToPlan,
    /// No reply is held for the host.
    NothingToPost,
    /// There is no such channel, host or LUN; a request that was to be submitted comes back.
    NoSuch(Option<Request>),
    /// The bus is free from then on, in ns of the channel's clock.
    Waited { bus_free: u64 },
    /// The LUN's first post may start from then on, in ns of the channel's clock.
    ReadyFrom { ready: u64 },
    /// The moment, or the last start of what would be left of the plan, is at 2^62 ns or later.
    TooLate,
    /// No array of the LUN works: it is free, or its group is in its commands or in its posts.
    NotInArray,
    /// The chip doesn't say that the LUN is ready.
    StillBusy,
}

/// Why a channel stopped.
#[derive(Clone, Copy, Debug, PartialEq, Eq)]
pub enum Cause {
    /// A call of the chip failed, or asked for sectors of a chip that puts out none.
    Bus,
    /// The LUN's status said that it isn't ready.
    NotReady(u8),
    /// The next plan might end at 2^62 ns or later.
    Clock,
}
