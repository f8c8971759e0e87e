use std::alloc::AllocError;
use thiserror::Error;

/// Why there is no plan, in the order in which it is reported.
#[derive(Clone, Copy, Debug, PartialEq, Eq, Error)]
pub enum PlanFault {
    /// That many nodes were opened, as many as may be, and the search was not over.
    #[error("the search opened {opened} nodes and isn't over")]
    Over { opened: u32 },
    /// Memory was refused.
    #[error("memory was refused")]
    Memory,
}

/// Memory was refused to a planner.
impl From<AllocError> for PlanFault {
    ghost use Rattle.std.specs.Prelude.{◌≡◌};
    ghost use Rattle.onfi_planner.specs.declared.fault.PlanFault.TheVariants.{Memory};

    ghost from_gives = { λ _ fault. fault ≡ Memory };

    fn from(_refused: AllocError) -> PlanFault {
        PlanFault::Memory
    }
}
