use onfi_addr::Place;
use onfi_request::Bytes;
use onfi_timing::Kind;

/// What a host asks of a channel, as its row says it.
#[derive(Drop)]
pub struct Operation {
    pub aim: Aim,
    /// What a program writes; no bytes for a read or an erase.
    pub content: Content,
}

/// Who asks which channel for what.
#[derive(Clone, Copy)]
pub struct Aim {
    /// The host, 0 to 3.
    pub host: u8,
    /// The channel, 0 to 3.
    pub channel: u8,
    pub kind: Kind,
    pub place: Place,
}

/// The bytes that a row says.
#[derive(Drop)]
pub enum Content {
    /// These bytes.
    Given(Bytes),
    /// A whole page of this byte.
    Filled(u8),
}
