ghost use Rattle.std.specs.Prelude.{◌≤◌};
ghost use Rattle.onfi_calls.specs.Geometry.{AreColumns, AreCounts, AreRowBits};

use crate::channel::PlainLengths;
use crate::device::PlainGeometry;
use onfi_steady::Dispatcher;

/// What it takes to look at a request: the device, the lengths of reads of some sectors, and how many bits of a block number name
/// its plane.
#[repr(C)]
#[derive(Clone, Copy)]
pub struct KeptDevice {
    pub lengths: PlainLengths,
    pub geometry: PlainGeometry,
    pub plane_bits: u8,
    ghost counts: { AreCounts geometry },
    ghost bits: { AreRowBits geometry },
    ghost columns: { AreColumns geometry },
    ghost few_planes: { plane_bits ≤ 2 },
}

/// What is kept of a channel that goes phase by phase: its dispatcher, and its device.
#[repr(C)]
#[derive(Clone, Copy)]
pub struct PlainDispatcher {
    pub dispatcher: Dispatcher,
    pub device: KeptDevice,
}
