//! What holds of turns, once for all.

ghost use Rattle.onfi_seq.specs.NoClock.{NoClock};

/// At the greatest moment no time passes in a turn, and no turn answers Waits: it is for who has no clock.
pub fn no_clock()
    ensures { NoClock }
{}
