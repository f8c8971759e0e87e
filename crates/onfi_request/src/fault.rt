/// An injected fault of a die: one program or erase of a block that fails and leaves its page, an erase the whole
/// block, torn.
#[derive(Clone, Copy, Debug, PartialEq, Eq)]
pub struct Fault {
    /// The LUN, from 0.
    pub lun: u8,
    /// The block of the LUN, from 0.
    pub block: u16,
    /// Which program or erase of that block it is, from 0; failed ones count, reads don't.
    pub number: u32,
}
