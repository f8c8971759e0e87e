ghost use Rattle.onfi_schedule.specs.Conditions.{EndsInTime};

use crate::phase::Phase;
use crate::phase_name::PhaseName;

/// A phase with its name.
#[derive(Clone, Copy)]
pub(crate) struct Slot {
    pub(crate) name: PhaseName,
    pub(crate) phase: Phase,
    pub ghost in_time: { EndsInTime phase },
}

impl Default for Slot {
    fn default() -> Slot {
        Slot {
            name: PhaseName::default(),
            phase: Phase {
                lun: 0,
                start: 0,
                length: 0,
            },
        }
    }
}
