use onfi_request::Want;

/// A phase of a group on the bus.
#[derive(Clone, Copy, Debug, PartialEq, Eq)]
pub struct GroupPhase {
    /// The member whose command or post it is.
    pub want: Want,
    /// How long it takes, in ns.
    pub length: u64,
    /// Its number in the group: the commands of its members come first, then their posts.
    pub number: u8,
    /// How many members the group has.
    pub members: u8,
}
