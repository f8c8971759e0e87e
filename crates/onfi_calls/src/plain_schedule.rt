//! From wants and plans to plain structs.
ghost use Rattle.std.specs.Prelude.{◌≡◌, ◌≤◌, length, map};
ghost use Rattle.onfi_schedule.specs.Schedule.{Legal};
ghost use Rattle.onfi_calls.specs.PlainSchedule as spec;

use crate::channel::PlainWant;
use crate::due::kind_number;
use crate::schedule::{PlainGroup, PlainRest, PlainSchedule};
use arrayvec::ArrayVec;
use onfi_problem::Problem;
use onfi_request::Want;
use onfi_schedule::{Placed, Schedule, Starts};

/// A want.
pub fn plain_want(want: &Want) -> PlainWant
    ensures { result ≡ spec.written_want want.now }
{
    PlainWant {
        id: want.id,
        kind: kind_number(want.kind),
        lun: want.lun,
        block: want.block,
        page: want.page,
    }
}

/// At most eight wants.
pub fn plain_wants(wants: &[Want]) -> ArrayVec<PlainWant, 8>
    requires { length wants.now ≤ 8 }
    ensures { result.items ≡ map spec.written_want wants.now }
{
    let mut all = ArrayVec::new();
    for want in wants {
        all.push(plain_want(want));
    }
    all
}

/// Starts, and 0 in the places past them.
fn fill_starts(starts: &[u64]) -> [u64; 8]
    requires { length starts.now ≤ 8 }
    ensures { result ≡ spec.filled 8 0 starts.now }
{
    let mut all = [0; 8];
    all[..starts.len()].copy_from_slice(starts);
    all
}

/// The numbers of a group's members, and 0 in the places past them.
fn numbers(wants: &[Want]) -> [u64; 4]
    requires { length wants.now ≤ 4 }
    ensures { result ≡ spec.filled 4 0 (map (λ w. w.id) wants.now) }
{
    let mut all = [0; 4];
    for (at, want) in wants.iter().enumerate() {
        all[at] = want.id;
    }
    all
}

/// What is left of a running group.
fn rest(starts: &Starts) -> PlainRest
    ensures { result ≡ spec.written_rest starts.now }
{
    let starts = starts.as_slice();
    PlainRest {
        starts: starts.len() as u8,
        start: fill_starts(starts),
    }
}

/// A new group.
fn group(placed: &Placed) -> PlainGroup
    ensures { result ≡ spec.written_group placed.now }
{
    let members = placed.members().members();
    PlainGroup {
        members: members.len() as u8,
        want: numbers(members),
        start: fill_starts(placed.starts().as_slice()),
    }
}

/// What stands where a LUN has nothing left.
pub const NO_REST: PlainRest = PlainRest {
    starts: 0,
    start: [0; 8],
};

/// What stands where there is no group.
pub const NO_GROUP: PlainGroup = PlainGroup {
    members: 0,
    want: [0; 4],
    start: [0; 8],
};

/// What is left of running groups, and nothing in the places past them.
fn fill_rests(of: &[Starts]) -> [PlainRest; 8]
    requires { length of.now ≤ 8 }
    ensures { result ≡ spec.filled 8 spec.no_rest (map spec.written_rest of.now) }
{
    let mut all = [NO_REST; 8];
    for (at, starts) in of.iter().enumerate() {
        all[at] = rest(starts);
    }
    all
}

/// New groups, and none in the places past them.
fn groups(of: &[Placed]) -> [PlainGroup; 8]
    requires { length of.now ≤ 8 }
    ensures { result ≡ spec.filled 8 spec.no_group (map spec.written_group of.now) }
{
    let mut all = [NO_GROUP; 8];
    for (at, placed) in of.iter().enumerate() {
        all[at] = group(placed);
    }
    all
}

/// A schedule of up to eight LUNs.
pub fn schedule(of: &Schedule) -> PlainSchedule
    requires { length of.now.rest ≤ 8 }
    ensures { result ≡ spec.written_schedule of.now }
{
    PlainSchedule {
        luns: of.rest().len() as u8,
        groups: of.groups().len() as u8,
        rest: fill_rests(of.rest()),
        group: groups(of.groups()),
    }
}

/// A legal schedule has no more LUNs than there are places.
pub fn is_small(problem: &Problem, of: &Schedule)
    requires { Legal problem.now.problem of.now }
    ensures { length of.now.rest ≤ 8 }
{
    let _ = problem.bus_free();
    let _ = of.rest();
}

/// A legal schedule of the problem.
pub fn legal_schedule(problem: &Problem, of: &Schedule) -> PlainSchedule
    requires { Legal problem.now.problem of.now }
    ensures { result ≡ spec.written_schedule of.now }
{
    is_small(problem, of);
    schedule(of)
}
