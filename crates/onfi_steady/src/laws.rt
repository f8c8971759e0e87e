//! What holds of books however long a channel runs.
ghost use Rattle.onfi_steady.specs.Fair.{AcceptsFairly, BeginsFairly, CancelsFairly, NoneStarves, RunsFairly};
ghost use Rattle.onfi_steady.specs.Following.{AcceptFollows, OneNext, RanFollows, ReadyFollows, RunFollows, TakesRising};

/// No request of fair books was passed over by more than 575 groups that hold a later one: 512 until the slowest kind is due, and
/// one for each of the 63 that may stand before it.
#[tactic(auto, using(crate::proofs::Fair::none_starves))]
pub fn none_starves()
    ensures { NoneStarves }
{}

/// Books stay fair where a request comes whose number is above those that wait for its LUN.
pub fn accepting_is_fair()
    ensures { AcceptsFairly }
{}

/// Books stay fair where the phase runs that is next.
pub fn running_is_fair()
    ensures { RunsFairly }
{}

/// Books of which nothing waits are fair.
pub fn beginning_is_fair()
    ensures { BeginsFairly }
{}

/// Books stay fair where a request is cancelled.
pub fn cancelling_is_fair()
    ensures { CancelsFairly }
{}

/// One phase is next.
#[tactic(auto, using(crate::proofs::Following::one_next))]
pub fn one_phase_is_next()
    ensures { OneNext }
{}

/// After a phase the channel, as a problem, is that of the books that it leaves.
#[tactic(auto, using(crate::proofs::Following::run_follows))]
pub fn channel_follows_phase()
    ensures { RunFollows }
{}

/// A dispatcher whose due phase ran is of the channel that the phase leaves.
#[tactic(auto, using(crate::proofs::Following::ran_follows))]
pub fn channel_follows_dispatcher()
    ensures { RanFollows }
{}

/// A request that is accepted is the channel's last want; with a number above the others it leaves a problem.
pub fn channel_follows_request()
    ensures { AcceptFollows }
{}

/// No request whose number is above the others is refused, for a LUN that is there, while fewer than 64 wait.
#[tactic(auto, using(crate::proofs::Following::takes_rising))]
pub fn rising_requests_are_accepted()
    ensures { TakesRising }
{}

/// What LUNs do decides whether one is found ready.
#[tactic(auto, using(crate::proofs::Following::ready_follows))]
pub fn ready_by_states()
    ensures { ReadyFollows }
{}
