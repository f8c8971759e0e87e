//! From what a caller says to a schedule.
ghost use Rattle.std.specs.Prelude.{◌≡◌, ◌≤◌, ◌*◌, Bool, false, length, map, take};
ghost use Rattle.std.specs.List.{list_any};
ghost use Rattle.onfi_calls.specs.ReadSchedule as spec;

use crate::schedule::{PlainGroup, PlainRest, PlainSchedule};
use arrayvec::ArrayVec;
use onfi_request::Want;
use onfi_schedule::{Placed, Schedule, Starts};
use onfi_script::group_named;
use std::alloc::Global;

/// No phase starts as late as this, in ns.
const LATE: u64 = 1 << 63;

/// Whether one of the first starts is too late.
fn has_late(starts: &[u64], count: usize) -> bool
    ensures { result ≡ list_any spec.is_late (take count starts.now) }
{
    starts.iter().take(count).any(|start| *start >= LATE)
}

/// Whether more starts are said than there are places, or one that is too late.
fn is_bad_rest(rest: &PlainRest) -> bool
    ensures { result ≡ spec.is_bad_rest rest.now }
{
    rest.starts > 8 || has_late(&rest.start, rest.starts as usize)
}

/// Whether no member is said, or more than there are places, or a start that is too late.
fn is_bad_group(group: &PlainGroup) -> bool
    ensures { result ≡ spec.is_bad_group group.now }
{
    group.members == 0 || group.members > 4 || has_late(&group.start, 2 * group.members as usize)
}

/// Whether one of the first running groups isn't said.
fn have_bad_rest(rests: &[PlainRest], count: usize) -> bool
    ensures { result ≡ list_any spec.is_bad_rest (take count rests.now) }
{
    rests.iter().take(count).any(|rest| is_bad_rest(rest))
}

/// Whether one of the first new groups isn't said.
fn have_bad_group(groups: &[PlainGroup], count: usize) -> bool
    ensures { result ≡ list_any spec.is_bad_group (take count groups.now) }
{
    groups.iter().take(count).any(|group| is_bad_group(group))
}

/// Whether no schedule is said.
pub fn is_bad_schedule(said: &PlainSchedule) -> bool
    ensures { result ≡ spec.is_bad_schedule said.now }
{
    said.luns > 8
        || said.groups > 8
        || have_bad_rest(&said.rest, said.luns as usize)
        || have_bad_group(&said.group, said.groups as usize)
}

/// Starts that are early enough.
fn starts_of(said: &[u64]) -> Starts
    requires few { length said.now ≤ 8 }
    requires early { list_any spec.is_late said.now ≡ false }
    ensures { result ≡ said.now }
{
    let mut starts = Starts::new();
    for start in said {
        starts.push(*start);
    }
    starts
}

/// The starts of what is left of a running group.
fn rest_of(said: &PlainRest) -> Starts
    requires { spec.is_bad_rest said.now ≡ false }
    ensures { result ≡ spec.rest_of said.now }
{
    starts_of(&said.start[..said.starts as usize])
}

/// The same of several.
fn rests_of(said: &[PlainRest]) -> ArrayVec<Starts, 9>
    requires few { length said.now ≤ 8 }
    requires good { list_any spec.is_bad_rest said.now ≡ false }
    ensures { result.items ≡ map spec.rest_of said.now }
{
    let mut rests = ArrayVec::new();
    for rest in said {
        rests.push(rest_of(rest));
    }
    rests
}

/// A group with its starts.
fn group_of(alloc: Global, wants: &[Want], said: &PlainGroup) -> Placed
    requires { spec.is_bad_group said.now ≡ false }
    ensures { result ≡ spec.group_of wants.now said.now }
{
    let count = said.members as usize;
    Placed::new(
        group_named(alloc, wants, &said.want[..count]),
        starts_of(&said.start[..2 * count]),
    )
}

/// The same of several.
fn groups_of(alloc: Global, wants: &[Want], said: &[PlainGroup]) -> ArrayVec<Placed, 8, Global>
    requires few { length said.now ≤ 8 }
    requires good { list_any spec.is_bad_group said.now ≡ false }
    ensures { result.items ≡ map (spec.group_of wants.now) said.now }
{
    let mut groups = ArrayVec::new_in(alloc);
    for group in said {
        groups.push(group_of(alloc, wants, group));
    }
    groups
}

/// The schedule that is said of these wants.
pub fn schedule_of(alloc: Global, wants: &[Want], said: &PlainSchedule) -> Schedule
    requires { spec.is_bad_schedule said.now ≡ false }
    ensures { result ≡ spec.schedule_of wants.now said.now }
{
    let rest = rests_of(&said.rest[..said.luns as usize]);
    let groups = groups_of(alloc, wants, &said.group[..said.groups as usize]);
    Schedule::new(rest, groups)
}
