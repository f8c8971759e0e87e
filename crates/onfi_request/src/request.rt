use crate::bytes::Bytes;
use onfi_addr::Place;
use onfi_timing::Kind;

/// What a host asks of a channel: one operation at one place.
#[derive(Debug, Drop)]
pub struct Request {
    /// Read, program or erase (ONFI 4.2, command definition); of a read, which sectors are put out.
    pub kind: Kind,
    /// The page; an erase names page 0 of its block.
    pub place: Place,
    /// What a program writes, all data and spare bytes of the page; nothing for a read or an erase.
    pub bytes: Bytes,
}

/// A request with its sender.
#[derive(Debug, Drop)]
pub struct Item {
    /// The host, 0 to 3.
    pub host: u8,
    /// How many items that host sent to this channel before.
    pub serial: u32,
    pub request: Request,
}
