/// A page of a device: its LUN, its block in the LUN and its page in the block, each counted from 0.
///
/// Whether a device has it is a matter of its [`crate::Geometry`].
#[derive(Clone, Copy, Debug, PartialEq, Eq)]
pub struct Place {
    pub lun: u8,
    pub block: u16,
    pub page: u16,
}
