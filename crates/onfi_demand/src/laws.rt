//! What demands promise, once for all problems.

ghost use Rattle.onfi_demand.specs.Laws.{SoonerLaw, BusLaw, LeadLaw, TrailLaw, DieLaw, EndLaw, OpenLaw, AskedLaw};
ghost use Rattle.onfi_demand.specs.Window.{WindowLaw, WindowAsksLaw};
ghost use Rattle.onfi_demand.specs.Kept.{KeptLaw};
ghost use Rattle.onfi_demand.specs.Asked.{StepLaw};

/// What may go on sooner has each run of a problem with the same left, and ends when it does.
pub fn sooner_runs()
    ensures { SoonerLaw }
{}

/// The demand of the bus bound, where it reaches the finish.
pub fn bus_asks()
    ensures { BusLaw }
{}

/// The demand of the lead bound.
pub fn lead_asks()
    ensures { LeadLaw }
{}

/// The demand of the trail bound.
pub fn trail_asks()
    ensures { TrailLaw }
{}

/// The demand of a die bound.
pub fn die_asks()
    ensures { DieLaw }
{}

/// The demand of a problem to which nothing is left.
pub fn end_asks()
    ensures { EndLaw }
{}

/// The demand of an open node, from those after its moves.
pub fn open_asks()
    ensures { OpenLaw }
{}

/// What is asked before a move is met where what is asked after it is.
pub fn asked_is_met()
    ensures { AskedLaw }
{}

/// The window bound: phases that start at a time or later and leave some time after them stand in between.
pub fn window_is_below()
    ensures { WindowLaw }
{}

/// The demand of the window bound.
pub fn window_asks()
    ensures { WindowAsksLaw }
{}

/// What holds of a demand holds of its numbers, as they are kept.
pub fn kept_asks()
    ensures { KeptLaw }
{}

/// The numbers of a move say what is asked before it.
pub fn step_asks()
    ensures { StepLaw }
{}
