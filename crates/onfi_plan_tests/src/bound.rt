use crate::sample::{free, running, want};
use onfi_bound::{Bound, BoundAt, Loads, bus, closing, die, lead, reaches, trail};
use onfi_group::Rules;
use onfi_problem::{Problem, ProblemFault};
use onfi_samples::sample_timing;
use onfi_timing::Kind;
use std::alloc::Global;
use std::test::Fail;

// The die bound of a LUN, where it is there.
fn die_of(problem: &Problem, lun: u8) -> Option<u64> {
    if (lun as usize) < problem.lun_count() {
        Some(die(problem, lun))
    } else {
        None
    }
}

// A read's data output and an erase's status are next, and another erase waits.
fn output_and_status(alloc: Global) -> Result<Problem, ProblemFault> {
    let luns = [
        running(alloc, want(0, Kind::Read, 0, 0), 0),
        running(alloc, want(0, Kind::Erase, 1, 0), 50),
    ];
    let erase = [want(0, Kind::Erase, 1, 1)];
    let rules = Rules::new(true, true, false, 1);
    Problem::new(alloc, sample_timing(), rules, 0, &luns, &erase)
}

#[test]
fn bounds_of_an_output_and_a_status(rt: HostRuntime) -> Result<(), Fail> {
    let problem = output_and_status(rt.alloc())?;
    assert_eq!(rt; (bus(&problem), lead(&problem)), (11660, 11560));
    assert_eq!(rt; trail(&problem), Some(1500480));
    assert_eq!(rt; die_of(&problem, 0), Some(11000));
    assert_eq!(rt; die_of(&problem, 1), Some(1500810));
    Ok(())
}

fn bound_of(first: Option<BoundAt>) -> Option<Bound> {
    match first {
        Some(first) => Some(first.bound),
        None => None,
    }
}

#[test]
fn the_first_bound_that_reaches(rt: HostRuntime) -> Result<(), Fail> {
    let problem = output_and_status(rt.alloc())?;
    let loads = Loads::new(rt.alloc(), &problem)?;
    for (finish, first) in [
        (11660, Some(Bound::Bus)),
        (1500480, Some(Bound::Trail)),
        (1500810, Some(Bound::Die(1))),
        (1500811, None),
    ] {
        assert_eq!(rt; bound_of(closing(&problem, finish)), first);
        assert_eq!(rt; bound_of(loads.closing(&problem, finish)), first);
    }
    for (bound, finish, does) in [
        (Bound::Bus, 11660, true),
        (Bound::Lead, 11561, false),
        (Bound::Die(0), 11000, true),
        (Bound::Die(2), 0, false),
    ] {
        assert_eq!(rt; reaches(&problem, bound, finish), does);
    }
    Ok(())
}

// Two programs that may not be grouped wait, and an erase's status is next.
fn programs_apart(alloc: Global) -> Result<Problem, ProblemFault> {
    let luns = [free(), running(alloc, want(0, Kind::Erase, 1, 0), 100000)];
    let wants = [want(0, Kind::Program, 0, 0), want(1, Kind::Program, 0, 1)];
    let rules = Rules::new(true, false, false, 1);
    Problem::new(alloc, sample_timing(), rules, 0, &luns, &wants)
}

#[test]
fn bounds_of_programs_apart(rt: HostRuntime) -> Result<(), Fail> {
    let problem = programs_apart(rt.alloc())?;
    assert_eq!(rt; (bus(&problem), lead(&problem)), (22440, 100840));
    assert_eq!(rt; trail(&problem), Some(221980));
    assert_eq!(rt; die_of(&problem, 0), Some(222860));
    assert_eq!(rt; die_of(&problem, 1), Some(100280));
    let lead = BoundAt {
        bound: Bound::Lead,
        at: 100840,
    };
    assert_eq!(rt; closing(&problem, 100840), Some(lead));
    Ok(())
}
