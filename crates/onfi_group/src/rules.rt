ghost use Rattle.std.specs.Prelude.{◌≡◌, ◌≤◌};
ghost use Rattle.onfi_group.specs.Planes.{ArePlaneBits};

/// Which operations may run as one on several planes of a LUN (ONFI 4.2, multi-plane operations).
#[repr(C)]
#[derive(Clone, Copy, Debug, PartialEq, Eq)]
pub struct Rules {
    /// Reads: features bit 6 of the parameter page.
    pub read: bool,
    /// Programs and erases: features bit 3 of the parameter page.
    pub write: bool,
    /// Grouped blocks also agree in the bits of their numbers above the plane bits.
    pub strict: bool,
    /// How many bits of a block number name its plane, at most 2.
    pub plane_bits: u8,
    pub ghost few_planes: { ArePlaneBits plane_bits },
}

impl Rules {
    /// The rules of a device.
    pub fn new(read: bool, write: bool, strict: bool, plane_bits: u8) -> Rules
        requires { plane_bits ≤ 2 }
        ensures read { result.read ≡ read }
        ensures write { result.write ≡ write }
        ensures strict { result.strict ≡ strict }
        ensures plane_bits { result.plane_bits ≡ plane_bits }
    {
        Rules {
            read,
            write,
            strict,
            plane_bits,
        }
    }
}
