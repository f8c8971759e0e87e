//! The device of a run.
ghost use Rattle.std.specs.Prelude.{◌≡◌, MatchResult, Ok, Err};
ghost use Rattle.onfi_core.specs.Stated.{StatesParts};
ghost use Rattle.onfi_script.specs.Device.{TellsChips};
ghost use Rattle.onfi_script.specs.Stop.{IfFault};

use onfi_script::{PageDevice, Row, RowStop, page_device};
use std::alloc::Global;

/// A device whose timing states how long the output of all sectors takes that a page of it has.
#[derive(Clone, Copy)]
pub struct StatedDevice {
    pub chips: PageDevice,
    ghost stated: { StatesParts chips.geometry chips.timing },
}

/// The device that the rows of a run describe.
///
/// # Errors
/// As [`page_device`].
pub(crate) fn read_stated_device(alloc: Global, rows: &[Row]) -> Result<StatedDevice, RowStop>
    ensures { MatchResult result (λ device. TellsChips rows.now (Ok device.chips)) (λ stop. IfFault stop (λ fault. TellsChips rows.now (Err fault))) }
{
    let chips = page_device(alloc, rows)?;
    Ok(StatedDevice { chips })
}
