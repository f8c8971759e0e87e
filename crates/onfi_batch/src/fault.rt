ghost use Rattle.std.specs.Prelude.{◌≡◌};
ghost use Rattle.onfi_batch.specs.Batch.{fault_of};

use onfi_lun::DriveFault;
use thiserror::Error;

/// Why a batch wasn't driven to its end.
#[derive(Clone, Copy, Debug, PartialEq, Eq, Error)]
pub enum BatchFault {
    /// The bus failed: nothing more is known of the chip. Or the chip puts out no sectors, and is as the calls so far left it.
    #[error("the bus failed")]
    Bus,
    /// The LUN reported that it isn't ready: nothing more is known of the chip.
    #[error("LUN {0} is not ready")]
    NotReady(u8),
    /// Memory was refused; calls may have been made, and the chip is as they left it.
    #[error("out of memory")]
    Memory,
}

/// Why the phase on that LUN wasn't run, as why the batch ends.
pub(crate) fn fault_of(fault: DriveFault, lun: u8) -> BatchFault
    ensures { result ≡ fault_of fault lun }
{
    match fault {
        DriveFault::Bus => BatchFault::Bus,
        DriveFault::NotReady => BatchFault::NotReady(lun),
        DriveFault::Memory => BatchFault::Memory,
    }
}
