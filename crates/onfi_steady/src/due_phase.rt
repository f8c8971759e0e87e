ghost use Rattle.std.specs.Prelude.{◌<◌, ◌≤◌};

/// How many LUNs a channel has, and which phase is due, where one is: that of a LUN, which goes on, or begins its group or
/// that of its oldest erase, and from when on it may start, in ns.
#[repr(C)]
#[derive(Clone, Copy)]
pub struct DuePhase {
    pub start: u64,
    pub is_there: bool,
    pub erase: bool,
    pub lun: u8,
    pub luns: u8,
    ghost few: { luns ≤ 8 },
    ghost there: { lun < luns },
}
