//! What the modules begin with: wants, LUNs, phases so short that sums can be checked by hand, and plans as texts.

ghost use Rattle.std.specs.Prelude.{◌≡◌, ◌≤◌};

use onfi_addr::Place;
use onfi_group::Group;
use onfi_plan::Plan;
use onfi_problem::LunState;
use onfi_request::Want;
use onfi_samples::want_of;
use onfi_timing::{Kind, Spans, Timing};
use std::alloc::{AllocError, Global};
use std::test::Fail;

/// A want of page 0 of a block, whose last bit is its plane.
pub(crate) fn want(id: u64, kind: Kind, lun: u8, block: u16) -> Want
    ensures id { result.id ≡ id }
    ensures plane { result.plane ≤ 3 }
{
    let page = 0;
    want_of(id, kind, Place { lun, block, page })
}

/// A LUN that is free from a time on.
pub(crate) fn free(since: u64) -> LunState {
    LunState::Free { since }
}

/// A LUN on which the second phase of an operation is next, from a time on.
pub(crate) fn running(alloc: Global, kind: Kind, lun: u8, ready: u64) -> LunState {
    LunState::Running {
        group: Group::of(alloc, &[want(0, kind, lun, 0)]),
        next: 1,
        ready,
    }
}

/// A read's command takes 10 ns, its array 50, its output 20; a program's 20, 100 and 2; an erase's 3, 500 and 2. The gap
/// of reads is that, of others 5.
pub(crate) fn timing(gap: u64) -> Result<Timing, Fail> {
    let read = Spans::new(10, gap, 50, 20)?;
    let program = Spans::new(20, 5, 100, 2)?;
    let erase = Spans::new(3, 5, 500, 2)?;
    Ok(Timing::new(read, program, erase))
}

/// When a plan ends, and what no schedule ends before; after a stroke the starts that are left of each LUN's running group;
/// then each new group, its members' numbers before its starts.
pub(crate) fn print_plan(alloc: Global, plan: &Plan) -> Result<Vec<u8>, AllocError> {
    let mut text = Vec::new(alloc);
    let (finish, below) = (plan.finish, plan.below);
    text.extend_from_slice(format!(in alloc; "{finish} {below}")?.as_bytes())?;
    for rest in plan.schedule.rest() {
        text.push(b'|')?;
        put_starts(alloc, &mut text, rest.as_slice())?;
    }
    for group in plan.schedule.groups() {
        text.push(b';')?;
        for member in group.members().members() {
            let id = member.id;
            text.extend_from_slice(format!(in alloc; " {id}")?.as_bytes())?;
        }
        text.push(b':')?;
        put_starts(alloc, &mut text, group.starts().as_slice())?;
    }
    Ok(text)
}

fn put_starts(alloc: Global, text: &mut Vec<u8>, starts: &[u64]) -> Result<(), AllocError> {
    for start in starts {
        let at = *start;
        text.extend_from_slice(format!(in alloc; " {at}")?.as_bytes())?;
    }
    Ok(())
}
