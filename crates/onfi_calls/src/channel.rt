/// How long the phases of a kind take, in ns, each below 2^50: a command with its address and data (at least 1), the
/// wait between two commands of a group, the wait for the array, and a post (at least 1).
#[repr(C)]
#[derive(Clone, Copy)]
pub struct PlainSpans {
    pub cmd: u64,
    pub gap: u64,
    pub array: u64,
    pub post: u64,
}

/// The same of each kind.
#[repr(C)]
#[derive(Clone, Copy)]
pub struct PlainTiming {
    pub read: PlainSpans,
    pub program: PlainSpans,
    pub erase: PlainSpans,
}

/// Whether reads, and whether programs and erases, may run as one on several planes; whether such a group is strict; and
/// how many bits of a block number name its plane, at most 2.
#[repr(C)]
#[derive(Clone, Copy)]
pub struct PlainRules {
    pub read: bool,
    pub write: bool,
    pub strict: bool,
    pub plane_bits: u8,
}

/// How long outputs of some sectors hold the bus: the posts of reads of one to seven sectors, in ns, each below 2^50; 0 where
/// none is stated.
#[repr(C)]
#[derive(Clone, Copy)]
pub struct PlainLengths {
    pub sectors: [u64; 7],
}

/// A request: its number, its kind (0 read, 1 program, 2 erase), its LUN, block and page; an erase names page 0.
#[repr(C)]
#[derive(Clone, Copy, Default)]
pub struct PlainWant {
    pub id: u64,
    pub kind: u8,
    pub lun: u8,
    pub block: u16,
    pub page: u16,
}

/// What a LUN does: nothing, where `members` is 0, and a group may begin on it from `since`; or it runs the group of the
/// first `members` wants, up to 4, of which phases 0 to `next - 1` are over and the next may start from `since`, in ns.
#[repr(C)]
#[derive(Clone, Copy)]
pub struct PlainLun {
    pub since: u64,
    pub members: u8,
    pub next: u8,
    pub member: [PlainWant; 4],
}

/// A channel as it stands: the lengths of its phases, those of reads of some sectors, its rules, from when on its bus is free, in ns,
/// and what the first `lun_count` LUNs do, up to 8.
#[repr(C)]
#[derive(Clone, Copy)]
pub struct PlainChannel {
    pub timing: PlainTiming,
    pub lengths: PlainLengths,
    pub rules: PlainRules,
    pub bus_free: u64,
    pub lun_count: u8,
    pub lun: [PlainLun; 8],
}
