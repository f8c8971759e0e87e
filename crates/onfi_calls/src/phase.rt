/// A phase on the bus, with what a driver gives out for it.
#[repr(C)]
#[derive(Clone, Copy)]
pub struct PlainPhase {
    /// When it starts by the schedule, and when it ends if it starts then, in ns.
    pub start: u64,
    pub end: u64,
    /// The number of its request.
    pub want: u64,
    /// The row address of its page.
    pub row: u32,
    pub block: u16,
    pub page: u16,
    pub lun: u8,
    /// 0 read, 1 program, 2 erase.
    pub kind: u8,
    /// Its number in its group, commands first, and how many requests the group has.
    pub number: u8,
    pub members: u8,
    /// The first command byte, and the last one; 0 where there is none.
    pub opener: u8,
    pub closer: u8,
    /// How many cycles of the row address.
    pub row_cycles: u8,
    /// Whether it is a post; else it is a command.
    pub is_post: bool,
}
