//! Laws of legal schedules and of runs, for whoever walks from problem to problem by moves.

ghost use Rattle.onfi_schedule.specs.Laws.{FirstMoveLaw, NextLaw, DoneLaw, EarlierLaw, MoveBackLaw, LegalRunLaw, RunLegalLaw, YieldLaw, OneTraceLaw};

/// The phase of least start of a legal schedule is that of a move; the others are legal after it and end when they
/// did, and with that phase at its earliest they are legal too and end no later.
pub fn first_move()
    ensures { FirstMoveLaw }
{}

/// Where something is left, a legal schedule has a phase of least start.
pub fn next_phase()
    ensures { NextLaw }
{}

/// Nothing is left exactly where a legal schedule has no phase.
pub fn done_without_phase()
    ensures { DoneLaw }
{}

/// With a move's phase earlier, what was legal after it still is, and ends no later.
pub fn earlier_is_legal()
    ensures { EarlierLaw }
{}

/// A legal schedule after a move, with the move's phase put before it, is legal and ends when it did.
pub fn move_back()
    ensures { MoveBackLaw }
{}

/// A legal schedule is a run to its finish.
pub fn legal_is_run()
    ensures { LegalRunLaw }
{}

/// A run is a legal schedule that ends when it does.
pub fn run_is_legal()
    ensures { RunLegalLaw }
{}

/// A move may yield to another LUN, each move of which fits before its phase: some run that begins with one of those
/// moves ends no later.
pub fn yielding()
    ensures { YieldLaw }
{}

/// A legal schedule has one trace, with its requests or without them.
pub fn one_trace()
    ensures { OneTraceLaw }
{}
