//! How the channels of a run go.
ghost use Rattle.std.specs.Prelude.{◌≡◌, false, true};
ghost use Rattle.onfi_core.specs.declared.setup.Choice.TheVariants.{InOrder, NextPhase};

use onfi_core::Choice;
use onfi_plan::Limit;

/// How each channel of a run goes: by plans of a copy of its planner, or phase by phase.
#[derive(Clone, Copy)]
pub struct Way<P> {
    pub(crate) planner: P,
    pub(crate) limit: Limit,
    pub(crate) choice: Choice,
    /// Whether a trace is kept of what each bus carries.
    pub(crate) is_traced: bool,
}

impl<P> Way<P> {
    /// By plans of `planner`, of requests in order of acceptance, with at most `limit` nodes for one planning.
    pub fn by_plans(planner: P, limit: Limit) -> Way<P>
        ensures { result ≡ record { planner = planner; limit = limit; choice = InOrder; is_traced = false } }
    {
        Way {
            planner,
            limit,
            choice: Choice::InOrder,
            is_traced: false,
        }
    }

    /// The same way, with a trace of what each bus carries.
    pub fn with_traces(self) -> Way<P>
        ensures { result ≡ record self { is_traced = true } }
    {
        Way {
            is_traced: true,
            ..self
        }
    }

    /// Phase by phase: of all that may come next on a bus the first, as a dispatcher gives it. Nothing is planned: the planner is
    /// never asked.
    pub fn by_next_phase(planner: P) -> Way<P>
        ensures { result.choice ≡ NextPhase }
    {
        Way {
            planner,
            limit: Limit::of(1).unwrap(),
            choice: Choice::NextPhase,
            is_traced: false,
        }
    }
}
