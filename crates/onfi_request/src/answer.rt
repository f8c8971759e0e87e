use crate::bytes::Bytes;

/// What a request came to.
#[derive(Debug, Drop)]
pub enum Answer {
    /// A read: the bytes that it puts out, all data and spare bytes of the page or those of its sectors.
    Read(Bytes),
    /// A program or an erase that succeeded.
    Done,
    /// A program or an erase whose status has FAIL set (ONFI 4.2, status field definition, bit 0).
    Failed,
}
