//! What stays legal of what is left, once for all, for whoever keeps it.

ghost use Rattle.onfi_flight.specs.Laws.{DoneStays, IdleStays, LateStays, ReadyStays, WaitStays};
ghost use Rattle.onfi_flight.specs.Times.{LaterLaw, ReadyLaw, ShiftLaw};

/// Nothing is left of an idle channel, and that is legal.
pub fn idle_is_legal()
    ensures { IdleStays }
{}

/// What the due phase leaves is legal.
pub fn done_stays_legal()
    ensures { DoneStays }
{}

/// So it is where that phase and all that is left start later by as much.
pub fn late_stays_legal()
    ensures { LateStays }
{}

/// So it is after a wait.
pub fn wait_stays_legal()
    ensures { WaitStays }
{}

/// So it is where a LUN is ready sooner.
pub fn ready_stays_legal()
    ensures { ReadyStays }
{}

/// All starts of a legal schedule later by that much are legal where the bus is free before each of them.
#[tactic(auto, using(crate::proofs::Shifted::later_legal))]
pub fn later_is_legal()
    ensures { LaterLaw }
{}

/// All starts of a legal schedule later by that much are legal where the bus is free later by at most as much, and the
/// schedule ends at most as much later.
pub fn shifted_is_legal()
    ensures { ShiftLaw }
{}

/// A legal schedule stays legal where the next phase of a running group is ready sooner, and ends no later.
pub fn ready_is_legal()
    ensures { ReadyLaw }
{}
