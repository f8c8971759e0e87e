//! What several modules begin with.

ghost use Rattle.std.specs.Prelude.{◌≡◌, ◌≤◌};

use onfi_addr::Place;
use onfi_group::Group;
use onfi_problem::LunState;
use onfi_request::Want;
use onfi_samples::want_of;
use onfi_timing::Kind;
use std::alloc::Global;

/// A want of page 0 of a block.
pub(crate) fn want(id: u64, kind: Kind, lun: u8, block: u16) -> Want
    ensures id { result.id ≡ id }
    ensures plane { result.plane ≤ 3 }
{
    let place = Place {
        lun,
        block,
        page: 0,
    };
    want_of(id, kind, place)
}

/// A LUN that is free from the start.
pub(crate) fn free() -> LunState {
    LunState::Free { since: 0 }
}

/// A LUN on which the post of an operation is next, from a time on.
pub(crate) fn running(alloc: Global, want: Want, ready: u64) -> LunState {
    LunState::Running {
        group: Group::of(alloc, &[want]),
        next: 1,
        ready,
    }
}
