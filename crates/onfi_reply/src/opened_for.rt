use onfi_addr::Geometry;

/// What a completion queue was opened for.
#[derive(Clone, Copy, Debug, PartialEq, Eq)]
pub struct OpenedFor {
    /// The channel, 0 to 3.
    pub channel: u8,
    /// The host, 0 to 3.
    pub host: u8,
    /// The geometry of the channel's device, on which the answers rest.
    pub geometry: Geometry,
}
