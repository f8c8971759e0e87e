//! By how much a plan must be later.

ghost use Rattle.std.specs.Prelude.{◌≡◌, max};
ghost use Rattle.std.specs.List.{flat_map};
ghost use Rattle.onfi_flight.specs.Times.{all_starts, lag, latest_start};
ghost use Rattle.onfi_schedule.specs.Schedule.{Placed as PlacedGroup};

use onfi_schedule::{Placed, Starts};

// By how much starts must be later so that none is before a moment, and the latest of them, both in ns.
#[derive(Clone, Copy, Debug)]
pub(crate) struct Lag {
    pub by: u64,
    pub latest: u64,
}

// That of a plan with these starts.
pub(crate) fn lag_of(moment: u64, rest: &[Starts], groups: &[Placed]) -> Lag
    ensures by { result.by ≡ lag moment (all_starts (record { rest = rest.now; groups = groups.now })) }
    ensures latest { result.latest ≡ latest_start (all_starts (record { rest = rest.now; groups = groups.now })) }
{
    with_groups(moment, of_rest(moment, rest), groups)
}

// That of the groups that run.
fn of_rest(moment: u64, rest: &[Starts]) -> Lag
    ensures by { result.by ≡ lag moment (flat_map (λ starts. starts) rest.now) }
    ensures latest { result.latest ≡ latest_start (flat_map (λ starts. starts) rest.now) }
{
    let mut all = Lag { by: 0, latest: 0 };
    for starts in rest {
        all = with_starts(moment, all, starts.as_slice());
    }
    all
}

// .. and of the groups that aren't started.
fn with_groups(moment: u64, rest: Lag, groups: &[Placed]) -> Lag
    ensures by { result.by ≡ max rest.by (lag moment (flat_map (λ (g : PlacedGroup). g.starts) groups.now)) }
    ensures latest { result.latest ≡ max rest.latest (latest_start (flat_map (λ (g : PlacedGroup). g.starts) groups.now)) }
{
    let mut all = rest;
    for placed in groups {
        all = with_starts(moment, all, placed.starts().as_slice());
    }
    all
}

// .. and of these starts more.
fn with_starts(moment: u64, before: Lag, starts: &[u64]) -> Lag
    ensures by { result.by ≡ max before.by (lag moment starts.now) }
    ensures latest { result.latest ≡ max before.latest (latest_start starts.now) }
{
    let mut all = before;
    for start in starts {
        all = Lag {
            by: all.by.max(moment.saturating_sub(*start)),
            latest: all.latest.max(*start),
        };
    }
    all
}
