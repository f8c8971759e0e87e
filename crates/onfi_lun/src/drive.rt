//! Why a bus phase isn't run on a chip.

ghost use Rattle.std.specs.Prelude.{◌≡◌};
ghost use Rattle.onfi_lun.specs.Drive.{fault_of_command, fault_of_post};

use onfi_chip::{ChipFault, PostFault};

/// Why a phase wasn't run.
#[derive(Clone, Copy, Debug, PartialEq, Eq)]
pub enum DriveFault {
    /// A call of the chip failed.
    Bus,
    /// The status of a program or an erase said that the LUN isn't ready.
    NotReady,
    /// Memory was refused: the chip is unchanged.
    Memory,
}

/// Why a command wasn't taken, as why its phase wasn't run.
pub(crate) fn fault_of_command(fault: ChipFault) -> DriveFault
    ensures { result ≡ fault_of_command fault }
{
    match fault {
        ChipFault::Bus => DriveFault::Bus,
        ChipFault::Memory => DriveFault::Memory,
    }
}

/// Why a post gave no answer, as why its phase wasn't run.
pub(crate) fn fault_of_post(fault: PostFault) -> DriveFault
    ensures { result ≡ fault_of_post fault }
{
    match fault {
        PostFault::Bus => DriveFault::Bus,
        PostFault::NotReady => DriveFault::NotReady,
    }
}
