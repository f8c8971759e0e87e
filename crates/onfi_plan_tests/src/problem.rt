ghost use Rattle.std.specs.Prelude.{◌<◌, length};
ghost use Rattle.onfi_problem.specs.Left.{InLimits};
ghost use Rattle.onfi_problem.specs.Position.{restored};

use crate::sample::{free, want};
use onfi_group::Rules;
use onfi_problem::{LunState, Problem, ProblemFault, Undo};
use onfi_request::Want;
use onfi_samples::sample_timing;
use onfi_timing::Kind;
use std::alloc::Global;
use std::process::Abort;
use std::test::Fail;

const READ: Kind = Kind::Read;

// Those of a device with four planes.
fn any_groups() -> Rules {
    Rules::new(true, true, false, 2)
}

fn problem(
    alloc: Global,
    bus_free: u64,
    luns: &[LunState],
    wants: &[Want],
) -> Result<Problem, ProblemFault> {
    Problem::new(alloc, sample_timing(), any_groups(), bus_free, luns, wants)
}

// Makes the move at a place, which may start at `start`.
fn step(rt: &impl Abort, problem: &mut Problem, at: usize, start: u64) -> Undo
    ensures within { result.lun < length problem.new.problem.luns }
    ensures limits { InLimits (restored problem.new result).problem }
{
    let Some(m) = problem.move_at(at) else {
        panic!(rt; "no move at {at}");
    };
    assert_eq!(rt; problem.earliest(&m), start);
    problem.advance(&m)
}

// Why these LUNs and wants, of a bus that is free from then on, are no problem.
fn fault(alloc: Global, luns: &[LunState], wants: &[Want], bus_free: u64) -> Option<ProblemFault> {
    problem(alloc, bus_free, luns, wants).err()
}

// What no script can say: ids and planes are worked out for it, and its times are below 2^62.
#[test]
fn ids_planes_and_times_are_looked_at(rt: HostRuntime) {
    let alloc = rt.alloc();
    let read = want(1, READ, 0, 0);
    let same = want(1, READ, 0, 1);
    let high = Want { plane: 4, ..read };
    let one = [free()];
    for wants in [[read, same].as_slice(), [high].as_slice()] {
        assert_eq!(rt; fault(alloc, &one, wants, 0), Some(ProblemFault::BadLun));
    }
    let never = [LunState::Free { since: u64::MAX }];
    assert_eq!(rt; fault(alloc, &never, &[], 0), Some(ProblemFault::Clock));
    assert_eq!(rt; fault(alloc, &[], &[], 0), Some(ProblemFault::TooMany));
}

#[test]
fn two_planes_read_as_one(rt: HostRuntime) -> Result<(), Fail> {
    let alloc = rt.alloc();
    let wants = [want(0, READ, 0, 0), want(1, READ, 0, 1)];
    let mut problem = problem(alloc, 0, &[free(), free()], &wants)?;
    assert_eq!(rt; problem.moves(alloc)?.len(), 3);
    let Some(both) = problem.move_at(2) else {
        panic!(rt; "no group of both");
    };
    let after = problem.after(alloc, &both)?;
    step(&rt, &mut problem, 2, 0);
    assert_eq!(rt; after.bus_free(), 140);
    assert_eq!(rt; after.luns(), problem.luns());
    assert_eq!(rt; after.waiting(), problem.waiting());
    for start in [740, 25980, 36980] {
        step(&rt, &mut problem, 0, start);
    }
    assert_eq!(rt; problem.bus_free(), 47980);
    assert_eq!(rt; problem.move_count(), 0);
    Ok(())
}
