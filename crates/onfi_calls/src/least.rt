//! Which phase of a schedule has the least start, seen where it is said.
ghost use Rattle.std.specs.Prelude.{◌≡◌, List, false, length, map, IfSome};
ghost use Rattle.std.specs.List.{list_any};
ghost use Rattle.onfi_request.specs.declared.want.Want.{Want as AWant};
ghost use Rattle.onfi_flight.specs.Turns.{IsTurn, LeastSoFar, SoonerOf, starts_in};
ghost use Rattle.onfi_calls.specs.InOrder.{is_odd_group, is_odd_rest, is_odd_schedule, some_start, turn_of};
ghost use Rattle.onfi_calls.specs.ReadSchedule as spec;

use crate::schedule::{PlainGroup, PlainRest, PlainSchedule};

/// The first start of a list of starts, with the place of that list.
#[derive(Clone, Copy)]
pub struct Start {
    pub at: usize,
    /// In ns.
    pub time: u64,
}

/// The phase of least start, by where its starts stand.
#[derive(Clone, Copy)]
pub enum Least {
    /// The next one of what runs on that LUN.
    Next(Start),
    /// The first one of the new group at that place.
    First(Start),
}

/// The sooner of that start and the first of these, which stand at that place; of equals the one that was there.
fn choose_sooner(least: Option<Start>, at: usize, starts: &[u64]) -> Option<Start>
    ensures { SoonerOf (some_start least) at starts.now (some_start result) }
{
    if starts.is_empty() {
        return least;
    }
    let start = Start {
        at,
        time: starts[0],
    };
    match least {
        Some(old) if old.time <= start.time => Some(old),
        Some(_) => Some(start),
        None => Some(start),
    }
}

/// The sooner of that start and the first of what is left of what runs on that LUN.
fn choose_sooner_rest(least: Option<Start>, at: usize, rest: &PlainRest) -> Option<Start>
    requires { is_odd_rest rest.now ≡ false }
    ensures { SoonerOf (some_start least) at (spec.rest_of rest.now) (some_start result) }
{
    choose_sooner(least, at, &rest.start[..usize::from(rest.starts)])
}

/// The sooner of that start and the first of the group at that place.
fn choose_sooner_group(least: Option<Start>, at: usize, group: &PlainGroup) -> Option<Start>
    requires { is_odd_group group.now ≡ false }
    ensures { SoonerOf (some_start least) at (spec.starts_of group.now) (some_start result) }
{
    choose_sooner(least, at, &group.start[..2 * usize::from(group.members)])
}

/// Of what runs the least start.
fn least_rest(rests: &[PlainRest]) -> Option<Start>
    requires { list_any is_odd_rest rests.now ≡ false }
    ensures { LeastSoFar (map spec.rest_of rests.now) (length rests.now) (some_start result) }
{
    let mut least = None;
    for (at, rest) in rests.iter().enumerate() {
        least = choose_sooner_rest(least, at, rest);
    }
    least
}

/// Of new groups the least start.
fn least_group(groups: &[PlainGroup]) -> Option<Start>
    requires { list_any is_odd_group groups.now ≡ false }
    ensures { LeastSoFar (map spec.starts_of groups.now) (length groups.now) (some_start result) }
{
    let mut least = None;
    for (at, group) in groups.iter().enumerate() {
        least = choose_sooner_group(least, at, group);
    }
    least
}

/// The phase of least start of these, if any is left; of equals that of what runs, then that which stands first.
fn least_of(rests: &[PlainRest], groups: &[PlainGroup]) -> Option<Least>
    requires rests { list_any is_odd_rest rests.now ≡ false }
    requires groups { list_any is_odd_group groups.now ≡ false }
    ensures { (wants : List AWant) → IfSome result (λ t. IsTurn (map spec.rest_of rests.now) (map (spec.group_of wants) groups.now) (turn_of t)) }
{
    match (least_rest(rests), least_group(groups)) {
        (Some(next), Some(first)) => {
            if next.time <= first.time {
                Some(Least::Next(next))
            } else {
                Some(Least::First(first))
            }
        }
        (Some(next), None) => Some(Least::Next(next)),
        (None, Some(first)) => Some(Least::First(first)),
        (None, None) => None,
    }
}

/// The phase of least start of a schedule.
pub fn least_start(said: &PlainSchedule) -> Option<Least>
    requires { is_odd_schedule said.now ≡ false }
    ensures { (wants : List AWant) → IfSome result (λ t. IsTurn (spec.schedule_of wants said.now).rest (spec.schedule_of wants said.now).groups (turn_of t)) }
{
    least_of(
        &said.rest[..usize::from(said.luns)],
        &said.group[..usize::from(said.groups)],
    )
}
