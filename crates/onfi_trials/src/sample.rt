//! What the trials begin with.

ghost use Rattle.std.specs.Prelude.{◌≡◌, ◌≤◌};

use crate::ended::Ended;
use onfi_addr::Place;
use onfi_group::{Group, Rules};
use onfi_problem::{LunState, Problem, ProblemFault};
use onfi_request::Want;
use onfi_samples::want_of;
use onfi_timing::{Kind, Timing};
use std::alloc::Global;

/// A want of page 0 of a block.
pub(crate) fn want(id: u64, kind: Kind, lun: u8, block: u16) -> Want
    ensures id { result.id ≡ id }
    ensures plane { result.plane ≤ 3 }
{
    let place = Place {
        lun,
        block,
        page: 0,
    };
    want_of(id, kind, place)
}

/// A LUN on which the post of an operation is next, from that time on, in ns.
pub(crate) fn running(alloc: Global, want: Want, ready: u64) -> LunState {
    LunState::Running {
        group: Group::of(alloc, &[want]),
        next: 1,
        ready,
    }
}

/// The problem of these LUNs and wants, where all kinds may be grouped.
pub(crate) fn problem(
    alloc: Global,
    timing: Timing,
    luns: &[LunState],
    wants: &[Want],
) -> Result<Problem, Ended> {
    let rules = Rules::new(true, true, false, 1);
    match Problem::new(alloc, timing, rules, 0, luns, wants) {
        Ok(problem) => Ok(problem),
        Err(ProblemFault::Memory) => Err(Ended::Memory),
        Err(_) => Err(Ended::NoTrial),
    }
}
