/// The starts of the phases that are left of a LUN's running group: the first `starts`, up to 8, in ns.
#[repr(C)]
#[derive(Clone, Copy)]
pub struct PlainRest {
    pub starts: u8,
    pub start: [u64; 8],
}

/// A new group: the numbers of its first `members` wants, 1 to 4, and the starts of their commands, then of their posts,
/// in ns.
#[repr(C)]
#[derive(Clone, Copy)]
pub struct PlainGroup {
    pub members: u8,
    pub want: [u64; 4],
    pub start: [u64; 8],
}

/// A schedule of the first `luns` LUNs, up to 8, with its first `groups` new groups, up to 8.
#[repr(C)]
#[derive(Clone, Copy)]
pub struct PlainSchedule {
    pub luns: u8,
    pub groups: u8,
    pub rest: [PlainRest; 8],
    pub group: [PlainGroup; 8],
}

/// A plan: its schedule, when its last phase ends, and before which time nothing ends, both in ns, and how many nodes the search
/// opened, or its last walk where it walks several times; 0 by the rule.
#[repr(C)]
#[derive(Clone, Copy)]
pub struct PlainPlanned {
    pub schedule: PlainSchedule,
    pub finish: u64,
    pub below: u64,
    pub opened: u32,
}

/// What a check reports: when the schedule ends, in ns, where it is accepted, and the token that a refusal speaks of.
#[repr(C)]
#[derive(Clone, Copy)]
pub struct PlainVerdict {
    pub finish: u64,
    pub place: u64,
}
