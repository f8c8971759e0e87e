use onfi_timing::Kind;

/// A request as a planning sees it: what is to be done where, under a number of its own.
#[derive(Clone, Copy, Debug, Default, PartialEq, Eq)]
pub struct Want {
    /// Numbers rise along a list of wants.
    pub id: u64,
    pub kind: Kind,
    /// The LUN, from 0.
    pub lun: u8,
    /// The plane of the block: its number modulo 2 to the plane address bits (ONFI 4.2, addressing).
    pub plane: u8,
    /// The block of the LUN, from 0.
    pub block: u16,
    /// The page of the block, from 0; an erase names page 0.
    pub page: u16,
}
