use onfi_addr::Geometry;
use onfi_timing::Timing;

/// What a driver knows of the chip that it drives.
#[derive(Clone, Copy, Debug, PartialEq, Eq)]
pub struct Target {
    pub geometry: Geometry,
    /// The lengths of phases and the waits between them.
    pub timing: Timing,
}
