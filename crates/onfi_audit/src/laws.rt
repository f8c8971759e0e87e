//! What the answers of an audit say of the log as a whole, once for all, for whoever gives it phases.

ghost use Rattle.onfi_audit.specs.Laws.{BusLaw, CompleteLaw, OpenLaw, SoundLaw, WholeLaw};

/// What was accepted is a legal beginning: from the opening with all requests each line is the phase of a move, no sooner than it may.
pub fn accepted_is_legal()
    ensures { SoundLaw }
{}

/// A line with which the log still is legal is not refused.
pub fn legal_is_accepted()
    ensures { CompleteLaw }
{}

/// The bus never goes back: what holds it for longer than a phase that came too soon goes on holding it.
pub fn bus_never_goes_back()
    ensures { BusLaw }
{}

/// A log after which nothing is left is that of a legal schedule.
pub fn whole_is_schedule()
    ensures { WholeLaw }
{}

/// What a log began with, with the requests that were accepted, is a problem; lengths are stated for all of it
/// where they are for what it began with.
pub fn requests_are_problem()
    ensures { OpenLaw }
{}
