//! What a dispatcher took its device has, so it never gives a phase of a page that isn't there.
ghost use Rattle.onfi_calls.specs.Serving.{BeginningServes, NextServes, RunningServes, TakingServes};

/// While the device has all that waits and runs, no next phase is refused for its page.
pub fn next_is_served()
    ensures { NextServes }
{}

/// It has all of a dispatcher that begins.
pub fn beginning_is_served()
    ensures { BeginningServes }
{}

/// .. of one that takes a request, or takes it again.
pub fn taking_is_served()
    ensures { TakingServes }
{}

/// .. and of one whose due phase ran.
pub fn running_is_served()
    ensures { RunningServes }
{}
