use crate::phase_name::PhaseName;
use std::fmt;
use thiserror::Error;

/// How a schedule breaks a condition of a legal one; its text is one sentence. Requests go by their numbers, LUNs from 0,
/// times are ns of the channel's clock.
#[derive(Clone, Copy, Debug, PartialEq, Eq, Error)]
pub enum Breach {
    /// There are starts for a LUN past the last one.
    #[error("the schedule has starts for a LUN that isn't there; the last one is LUN {last}")]
    ForeignLun {
        last: usize,
    },
    /// There are no starts for that LUN and those after it, not even an empty list of them; no plan text says this.
    #[error("the schedule leaves out LUN {lun}")]
    MissingLun {
        lun: usize,
    },
    /// There are starts for what runs on a LUN that is free.
    #[error("the schedule goes on with LUN {lun}, which is free")]
    RestOfFreeLun {
        lun: u8,
    },
    /// A running group has more or fewer starts than phases left.
    #[error("the number of starts for LUN {lun}'s running group is {starts} in place of {left}")]
    RestCount {
        lun: u8,
        starts: usize,
        left: usize,
    },
    /// A group, named by its first request, has not two starts for each member.
    #[error("the number of starts for the group of request {request} is {starts} in place of {phases}")]
    StartCount {
        request: u64,
        starts: usize,
        phases: usize,
    },
    /// A group names a request that the problem doesn't have.
    #[error("the schedule names request {request}, which isn't in the script")]
    UnknownRequest {
        request: u64,
    },
    /// A request is in no group.
    #[error("request {request} isn't in the schedule")]
    MissingRequest {
        request: u64,
    },
    /// A request is in groups more than once.
    #[error("request {request} is in the schedule {times} times")]
    RepeatedRequest {
        request: u64,
        times: usize,
    },
    /// Of a request and the first one of its group something differs that members share.
    #[error("request {request} can't be grouped with request {first}: their {difference} differ")]
    MixedGroup {
        first: u64,
        request: u64,
        difference: Difference,
    },
    /// Several requests are grouped, of a kind that the device doesn't run on several planes at once.
    #[error("request {request} can't be grouped with request {first}: the device has no multi-plane operation of their kind")]
    SinglePlane {
        first: u64,
        request: u64,
    },
    /// A member's plane isn't above that of the member before it.
    #[error("request {request} can't follow request {before} in a group: its plane isn't higher")]
    PlaneOrder {
        before: u64,
        request: u64,
    },
    /// A phase starts before the bus is free.
    #[error("{phase} starts at {start} ns; the bus is free from {bus_free} ns")]
    BusNotFree {
        phase: PhaseName,
        start: u64,
        bus_free: u64,
    },
    /// A phase starts while another one holds the bus.
    #[error("{phase} starts at {start} ns, while {holder} holds the bus from {from} to {to} ns")]
    Overlap {
        phase: PhaseName,
        start: u64,
        holder: PhaseName,
        from: u64,
        to: u64,
    },
    /// The next phase of a running group starts before its LUN is ready.
    #[error("{phase} starts at {start} ns; its LUN {lun} is ready from {ready} ns")]
    NotReady {
        phase: PhaseName,
        lun: u8,
        start: u64,
        ready: u64,
    },
    /// A phase starts before the one before it in its group, and the wait after that one, are over.
    #[error("{phase} starts at {start} ns; behind {before} its LUN {lun} is ready from {ready} ns")]
    WaitTooShort {
        phase: PhaseName,
        before: PhaseName,
        lun: u8,
        start: u64,
        ready: u64,
    },
    /// A group starts before the running group of its LUN has ended.
    #[error("{phase} starts at {start} ns; LUN {lun}'s running group ends at {end} ns")]
    RunningGroupLeft {
        phase: PhaseName,
        lun: u8,
        start: u64,
        end: u64,
    },
    /// A group starts while another new group has its LUN.
    #[error("{phase} starts at {start} ns, while the group of request {holder} has LUN {lun} from {from} to {to} ns")]
    LunTaken {
        phase: PhaseName,
        lun: u8,
        start: u64,
        holder: u64,
        from: u64,
        to: u64,
    },
    /// A group starts before its LUN is free.
    #[error("{phase} starts at {start} ns; its LUN {lun} is free from {since} ns")]
    LunNotFree {
        phase: PhaseName,
        lun: u8,
        start: u64,
        since: u64,
    },
    /// Of two requests on one block, the group of the later starts before that of the earlier has ended.
    #[error("the group of request {later} starts at {start} ns; that of request {earlier}, which comes first on the same block, ends at {end} ns")]
    BlockOrder {
        earlier: u64,
        later: u64,
        start: u64,
        end: u64,
    },
}

/// What the members of a group share, and these two don't.
#[derive(Clone, Copy, Debug, PartialEq, Eq)]
pub enum Difference {
    Kind,
    Lun,
    Page,
    /// The block number above the plane bits.
    Block,
}

impl Difference {
    fn text(&self) -> &'static str {
        match self {
            Difference::Kind => "kinds",
            Difference::Lun => "LUNs",
            Difference::Page => "pages",
            Difference::Block => "block numbers above the plane bits",
        }
    }
}

impl fmt::Display for Difference {
    fn fmt<W: fmt::Write>(&self, f: &mut fmt::Formatter<W>) -> fmt::Result {
        f.write_str(self.text())
    }
}
