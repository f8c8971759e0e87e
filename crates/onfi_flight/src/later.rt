//! A schedule whose starts are later.

ghost use Rattle.std.specs.Prelude.{◌≡◌, ◌+◌, ◌<◌, ◌≤◌, ◌^◌, length, map};
ghost use Rattle.std.specs.List.{AllByRecursion as Each};
ghost use Rattle.onfi_flight.specs.Times.{later, later_group, later_starts};

use arrayvec::ArrayVec;
use onfi_schedule::{Placed, Schedule, Starts};
use std::alloc::Global;

// The schedule with all starts later by that many ns; this takes no memory.
pub(crate) fn delay_schedule(alloc: Global, by: u64, schedule: &Schedule) -> Schedule
    requires rest { Each (λ starts. Each (λ t. t + by < 2 ^ 63) starts) schedule.now.rest }
    requires groups { Each (λ g. Each (λ t. t + by < 2 ^ 63) g.starts) schedule.now.groups }
    ensures { result ≡ later by schedule.now }
{
    Schedule::new(
        later_rest(by, schedule.rest()),
        delay_groups(alloc, by, schedule.groups()),
    )
}

// What is left of running groups, later by that much.
fn later_rest(by: u64, rest: &[Starts]) -> ArrayVec<Starts, 9>
    requires few { length rest.now ≤ 9 }
    requires early { Each (λ starts. Each (λ t. t + by < 2 ^ 63) starts) rest.now }
    ensures { result.items ≡ map (later_starts by) rest.now }
{
    let mut later = ArrayVec::new();
    for starts in rest {
        later.push(later_starts(by, starts));
    }
    later
}

// New groups, later by that much.
fn delay_groups(alloc: Global, by: u64, groups: &[Placed]) -> ArrayVec<Placed, 8, Global>
    requires few { length groups.now ≤ 8 }
    requires early { Each (λ g. Each (λ t. t + by < 2 ^ 63) g.starts) groups.now }
    ensures { result.items ≡ map (later_group by) groups.now }
{
    let mut later = ArrayVec::new_in(alloc);
    for placed in groups {
        later.push(delay_group(by, placed));
    }
    later
}

// A group, later by that much.
fn delay_group(by: u64, placed: &Placed) -> Placed
    requires { Each (λ t. t + by < 2 ^ 63) placed.now.starts }
    ensures { result ≡ later_group by placed.now }
{
    Placed::new(placed.members().copy(), later_starts(by, placed.starts()))
}

// Starts that are later by that much.
fn later_starts(by: u64, starts: &Starts) -> Starts
    requires { Each (λ t. t + by < 2 ^ 63) starts.now }
    ensures { result ≡ later_starts by starts.now }
{
    let mut all = Starts::new();
    for start in starts.as_slice() {
        all.push(*start + by);
    }
    all
}
