//! Which phase has the least start.

ghost use Rattle.std.specs.Prelude.{◌≡◌, ◌^◌, ◌<◌, map, length, IfSome, MatchOption};
ghost use Rattle.onfi_flight.specs.Turns.{IsTurn, LeastSoFar, NoneStart, SoonerIs, SoonerOf, starts_in, turn_time};

use onfi_schedule::{Placed, Starts};

/// The first start of a list of starts, with the place of that list.
#[derive(Clone, Copy, Debug)]
pub struct Start {
    pub at: usize,
    /// In ns of the channel's clock.
    pub time: u64,
}

/// The phase of least start, by where its starts stand.
#[derive(Clone, Copy, Debug)]
pub enum Turn {
    /// The next one of the group that runs on that LUN.
    Next(Start),
    /// The first one of the group at that place, which isn't started.
    First(Start),
}

/// The phase of least start, if any is left; of equals that of a running group, then that which stands first.
pub fn next_turn(rest: &[Starts], groups: &[Placed]) -> Option<Turn>
    ensures turn { MatchOption result (NoneStart rest.now × NoneStart (starts_in groups.now)) (IsTurn rest.now groups.now) }
    ensures time { IfSome result (λ t. turn_time t < 2 ^ 63) }
{
    match (least_rest(rest), least_group(groups)) {
        (Some(next), Some(first)) => {
            if next.time <= first.time {
                Some(Turn::Next(next))
            } else {
                Some(Turn::First(first))
            }
        }
        (Some(next), None) => Some(Turn::Next(next)),
        (None, Some(first)) => Some(Turn::First(first)),
        (None, None) => None,
    }
}

// Where the running group stands whose next phase starts first.
fn least_rest(rest: &[Starts]) -> Option<Start>
    ensures least { LeastSoFar rest.now (length rest.now) result }
    ensures time { IfSome result (λ s. s.time < 2 ^ 63) }
{
    let mut least = None;
    for (at, starts) in rest.iter().enumerate() {
        least = choose_sooner_of(least, at, starts);
    }
    least
}

// Where the new group stands that starts first.
fn least_group(groups: &[Placed]) -> Option<Start>
    ensures least { LeastSoFar (map (λ g. g.starts) groups.now) (length groups.now) result }
    ensures time { IfSome result (λ s. s.time < 2 ^ 63) }
{
    let mut least = None;
    for (at, placed) in groups.iter().enumerate() {
        least = choose_sooner_of(least, at, placed.starts());
    }
    least
}

// The sooner of that start and the first of these, which stand at that place.
fn choose_sooner_of(least: Option<Start>, at: usize, starts: &Starts) -> Option<Start>
    requires { IfSome least (λ s. s.time < 2 ^ 63) }
    ensures sooner { SoonerOf least at starts.now result }
    ensures time { IfSome result (λ s. s.time < 2 ^ 63) }
{
    let starts = starts.as_slice();
    if starts.is_empty() {
        return least;
    }
    choose_sooner(
        least,
        Start {
            at,
            time: starts[0],
        },
    )
}

// The sooner of the two; of equals the first.
fn choose_sooner(least: Option<Start>, start: Start) -> Option<Start>
    ensures { SoonerIs least start result }
{
    match least {
        Some(old) if old.time <= start.time => Some(old),
        Some(_) => Some(start),
        None => Some(start),
    }
}
