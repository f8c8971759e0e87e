use onfi_addr::Geometry;

/// What a submission queue was opened with.
#[derive(Clone, Copy, Debug, PartialEq, Eq)]
pub struct Opened {
    /// The channel, 0 to 3.
    pub channel: u8,
    /// The geometry of the channel's device, against which requests are checked.
    pub geometry: Geometry,
}
