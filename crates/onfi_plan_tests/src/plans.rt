ghost use Rattle.std.specs.Prelude.{◌≡◌, ◌≤◌};

use onfi_addr::Place;
use onfi_group::{Group, Rules};
use onfi_known_check::{check_known_text, check_known_within};
use onfi_known_plan::plan_within;
use onfi_plan::{Certificate, Limit, Plan};
use onfi_planner::plan_counted;
use onfi_problem::{LunState, Problem, ProblemFault};
use onfi_request::Want;
use onfi_samples::{sample_timing, want_of};
use onfi_schedule::{finish, legal};
use onfi_steady::plan_by_rule;
use onfi_timing::Kind;
use std::alloc::Global;
use std::test::Fail;

// A want of page 0 of a block.
fn want(id: u64, kind: Kind, lun: u8, block: u16) -> Want
    ensures id { result.id ≡ id }
    ensures plane { result.plane ≤ 3 }
{
    let page = 0;
    want_of(id, kind, Place { lun, block, page })
}

// The text of a plan's certificate, where it remembers states.
fn text_of(plan: &Plan) -> Option<&[u8]> {
    match &plan.certificate {
        Certificate::Text(text) => Some(text.as_slice()),
        Certificate::Tokens(_) => None,
    }
}

// Reads, programs and an erase of four LUNs, while the status of a program on LUN 1 is next.
fn mixed(alloc: Global) -> Result<Problem, ProblemFault> {
    let luns = [
        LunState::Free { since: 0 },
        LunState::Running {
            group: Group::of(alloc, &[want(0, Kind::Program, 1, 3)]),
            next: 1,
            ready: 300_000,
        },
        LunState::Free { since: 50_000 },
        LunState::Free { since: 0 },
    ];
    let wants = [
        want(0, Kind::Read, 0, 0),
        want(1, Kind::Program, 0, 1),
        want(2, Kind::Read, 1, 0),
        want(3, Kind::Program, 2, 2),
        want(4, Kind::Read, 2, 0),
        want(5, Kind::Erase, 3, 1),
        want(6, Kind::Program, 3, 0),
        want(7, Kind::Read, 3, 2),
    ];
    let rules = Rules::new(true, true, false, 1);
    Problem::new(alloc, sample_timing(), rules, 1000, &luns, &wants)
}

#[test]
fn a_plan_ends_when_that_of_the_plain_search_does(rt: HostRuntime) -> Result<(), Fail> {
    let alloc = rt.alloc();
    let problem = mixed(alloc)?;
    let plain = plan_counted(alloc, &problem, 1_048_576)?;
    let planned = plan_within(alloc, &problem, Limit::of(1_048_576).unwrap())?;
    assert_eq!(rt; planned.finish, plain.planned.finish);
    assert!(rt; planned.opened <= plain.opened);
    assert_eq!(rt; planned.opened, 1);
    let text = text_of(&planned).expect(&rt, "a text");
    let checked = check_known_text(alloc, &problem, &planned.schedule, text);
    assert_eq!(rt; checked, Ok(plain.planned.finish));
    Ok(())
}

// Six reads of three LUNs, of which the first schedules aren't the best.
fn six_reads(alloc: Global) -> Result<Problem, ProblemFault> {
    let luns = [
        LunState::Free { since: 0 },
        LunState::Free { since: 0 },
        LunState::Free { since: 0 },
    ];
    let wants = [
        want(0, Kind::Read, 1, 1),
        want(1, Kind::Read, 2, 1),
        want(2, Kind::Read, 1, 2),
        want(3, Kind::Read, 2, 0),
        want(4, Kind::Read, 2, 2),
        want(5, Kind::Read, 0, 1),
    ];
    let rules = Rules::new(true, true, false, 1);
    Problem::new(alloc, sample_timing(), rules, 0, &luns, &wants)
}

// How many nodes each walk opens was counted by an independent search in C++: 256, then 126.
#[test]
fn a_tree_is_walked_once_more_where_a_sooner_finish_was_found(rt: HostRuntime) -> Result<(), Fail> {
    let alloc = rt.alloc();
    let problem = six_reads(alloc)?;
    let planned = plan_within(alloc, &problem, Limit::of(1000).unwrap())?;
    assert_eq!(rt; planned.finish, 92_120);
    assert_eq!(rt; planned.opened, 126);
    let text = text_of(&planned).expect(&rt, "a text");
    assert!(rt; text.starts_with(b"ONFICERT 3 remember\nB"));
    let checked = check_known_text(alloc, &problem, &planned.schedule, text);
    assert_eq!(rt; checked, Ok(92_120));
    Ok(())
}

// No data output starts before a command and an array time, at 25,240 ns, and six of 11,000 ns each are left then. Both the
// first walk and the one for the middle meet the limit.
#[test]
fn a_plan_within_a_small_limit_tells_what_nothing_ends_before(rt: HostRuntime) -> Result<(), Fail> {
    let alloc = rt.alloc();
    let problem = six_reads(alloc)?;
    let planned = plan_within(alloc, &problem, Limit::of(100).unwrap())?;
    assert!(rt; legal(&problem, &planned.schedule));
    assert_eq!(rt; finish(&problem, &planned.schedule), planned.finish);
    assert!(rt; planned.finish >= 92_120);
    assert_eq!(rt; planned.below, 91_240);
    assert!(rt; text_of(&planned) == Some(b"ONFICERT 3 remember\nL\n".as_slice()));
    assert_eq!(rt; planned.opened, 100);
    Ok(())
}

// The first walk opens 256 nodes, and has found what ends first before it meets one more than 255. Nothing ends before
// the middle between its finish and the bound of 91,240 ns, as a walk within the same limit shows.
#[test]
fn a_plan_within_a_limit_is_the_best_that_was_found(rt: HostRuntime) -> Result<(), Fail> {
    let alloc = rt.alloc();
    let problem = six_reads(alloc)?;
    let planned = plan_within(alloc, &problem, Limit::of(255).unwrap())?;
    assert!(rt; legal(&problem, &planned.schedule));
    assert_eq!(rt; (planned.finish, planned.below), (92_120, 91_680));
    assert!(rt; planned.opened >= 1);
    let text = text_of(&planned).expect(&rt, "a text");
    let checked = check_known_within(alloc, &problem, &planned.schedule, 91_680, text);
    assert_eq!(rt; checked, Ok(92_120));
    Ok(())
}

// Whether a plan of one node ends no later than that of the rule.
fn is_no_later(alloc: Global, problem: &Problem) -> Result<bool, Fail> {
    let ruled = plan_by_rule(alloc, problem)?;
    let planned = plan_within(alloc, problem, Limit::of(1).unwrap())?;
    Ok(planned.finish <= ruled.finish)
}

// One node is no search: the plan is the best of the first schedules, of which the rule's is one.
#[test]
fn a_plan_of_one_node_ends_no_later_than_that_of_the_rule(rt: HostRuntime) -> Result<(), Fail> {
    let alloc = rt.alloc();
    assert!(rt; is_no_later(alloc, &mixed(alloc)?)?);
    assert!(rt; is_no_later(alloc, &six_reads(alloc)?)?);
    Ok(())
}

// After the first command of the two erases, at 100 ns, the second is ready at 700 and ends at 800; their array is over at
// 1,500,900, and two statuses of 280 follow. The rule keeps the bus for that command; the other first schedules put the
// program's data between the two, and end 10,200 ns later.
#[test]
fn a_plan_of_one_node_keeps_the_bus_as_the_rule_does(rt: HostRuntime) -> Result<(), Fail> {
    let alloc = rt.alloc();
    let luns = [LunState::Free { since: 0 }, LunState::Free { since: 0 }];
    let wants = [
        want(0, Kind::Erase, 1, 1),
        want(1, Kind::Erase, 1, 2),
        want(2, Kind::Program, 0, 5),
    ];
    let rules = Rules::new(true, true, false, 1);
    let problem = Problem::new(alloc, sample_timing(), rules, 0, &luns, &wants)?;
    let planned = plan_within(alloc, &problem, Limit::of(1).unwrap())?;
    assert_eq!(rt; planned.finish, 1_501_460);
    Ok(())
}
