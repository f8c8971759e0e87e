/// How long an operation of a LUN's array really takes: that of this number, from 0, in the order of their starts. A group
/// is one operation.
#[derive(Clone, Copy, Debug, PartialEq, Eq)]
pub struct ArrayTime {
    pub lun: u8,
    pub number: u32,
    /// In ns. It counts up to the stated length, since a device keeps its maxima.
    pub length: u64,
}
