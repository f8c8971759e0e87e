ghost use Rattle.std.specs.Prelude.{◌≤◌};

use onfi_addr::Geometry;
use onfi_timing::Timing;

/// What a script says of its device.
#[derive(Clone, Copy)]
pub struct Device {
    /// How many LUNs there are, 1 to 8.
    pub luns: u8,
    /// How many bits of a block number name its plane, at most 2.
    pub plane_bits: u8,
    /// Whether reads may be grouped.
    pub reads: bool,
    /// Whether programs, and erases, may be grouped.
    pub writes: bool,
    pub timing: Timing,
    ghost some_luns: { 1 ≤ luns },
    ghost few_luns: { luns ≤ 8 },
    ghost few_planes: { plane_bits ≤ 2 },
}

/// The chips that a parameter page and a timing sheet describe, or those of a run of the first form.
#[derive(Clone, Copy)]
pub struct PageDevice {
    pub geometry: Geometry,
    pub timing: Timing,
}
