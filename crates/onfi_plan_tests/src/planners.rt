use onfi_group::{Group, Rules};
use onfi_plan::{Limit, PlanFault, Planner};
use onfi_planners::{
    By, ChosenPlanner, Early, Nodes, PlainPlanner, Weighing, Weights, cost_of, make_better,
};
use onfi_problem::{LunState, Problem};
use onfi_request::Want;
use onfi_timing::{Kind, Spans, Timing};
use std::alloc::Global;
use std::test::Fail;

// Phases so short that the sums can be checked by hand.
fn timing() -> Result<Timing, Fail> {
    let read = Spans::new(10, 1, 100, 20)?;
    let program = Spans::new(50, 1, 400, 3)?;
    let erase = Spans::new(5, 1, 900, 3)?;
    Ok(Timing::new(read, program, erase))
}

// An erase on LUN 0 decides the finish, a status of LUN 1 is due, and a program of LUN 2 waits.
fn with_status_due(alloc: Global) -> Result<Problem, Fail> {
    let page = 0;
    let running = Want {
        id: 0,
        kind: Kind::Program,
        lun: 1,
        plane: 0,
        block: 4,
        page,
    };
    let luns = [
        LunState::Free { since: 0 },
        LunState::Running {
            group: Group::of(alloc, &[running]),
            next: 1,
            ready: 0,
        },
        LunState::Free { since: 0 },
    ];
    let wants = [
        Want {
            id: 0,
            kind: Kind::Erase,
            lun: 0,
            plane: 0,
            block: 0,
            page,
        },
        Want {
            id: 1,
            kind: Kind::Program,
            lun: 2,
            plane: 0,
            block: 0,
            page,
        },
    ];
    let rules = Rules::new(true, true, false, 1);
    Ok(Problem::new(alloc, timing()?, rules, 0, &luns, &wants)?)
}

// What a plan by a planner costs where all requests count alike, when it ends, and before what nothing ends.
fn told(
    alloc: Global,
    planner: &impl Planner,
    problem: &Problem,
) -> Result<(u128, u64, u64), PlanFault> {
    let plan = planner.plan(alloc, problem, Limit::of(1000).unwrap())?;
    let equal = Weights {
        wants: [1; 8],
        running: [[1; 4]; 8],
    };
    let cost = cost_of(problem, &plan.schedule, &equal);
    Ok((cost, plan.finish, plan.below))
}

// The plain planner, whose plans are made better by so many nodes.
fn early_by(weighing: Weighing, nodes: Nodes) -> ChosenPlanner {
    ChosenPlanner {
        by: By::Plain,
        early: Some(Early { weighing, nodes }),
    }
}

// With no node for a better plan it is that of the other planner; with the root and one step below it nothing is found yet.
#[test]
fn the_nodes_of_a_better_plan_are_named(rt: HostRuntime) -> Result<(), Fail> {
    let alloc = rt.alloc();
    let problem = with_status_due(alloc)?;
    for number in [0, 2] {
        let early = early_by(Weighing::Equal, Nodes::of(number).unwrap());
        assert!(rt; told(alloc, &early, &problem) == told(alloc, &PlainPlanner, &problem));
    }
    let usual = early_by(Weighing::Equal, Nodes::usual());
    assert!(rt; told(alloc, &usual, &problem) == Ok((1377, 908, 908)));
    assert_eq!(rt; Early::default().nodes.get(), 1_500);
    Ok(())
}

#[test]
fn a_plan_is_made_better_by_so_many_nodes(rt: HostRuntime) -> Result<(), Fail> {
    let alloc = rt.alloc();
    let problem = with_status_due(alloc)?;
    let equal = Weights {
        wants: [1; 8],
        running: [[1; 4]; 8],
    };
    let plan = PlainPlanner.plan(alloc, &problem, Limit::of(1000).unwrap())?;
    let nodes = Nodes::of(100).unwrap();
    let better = make_better(alloc, &problem, plan, &equal, nodes)?;
    assert_eq!(rt; cost_of(&problem, &better.schedule, &equal), 1377);
    Ok(())
}

#[test]
fn nodes_are_at_most_those_of_a_search(rt: HostRuntime) {
    assert!(rt; Nodes::of(1_048_576).is_some());
    assert!(rt; Nodes::of(1_048_577).is_none());
}

// Two reads of two LUNs; the older one, accepted at place 5, is that of LUN 1.
fn with_an_older_read(alloc: Global) -> Result<Problem, Fail> {
    let luns = [LunState::Free { since: 0 }, LunState::Free { since: 0 }];
    let (kind, plane, block, page) = (Kind::Read, 0, 0, 0);
    let wants = [
        Want {
            id: 5,
            kind,
            lun: 1,
            plane,
            block,
            page,
        },
        Want {
            id: 9,
            kind,
            lun: 0,
            plane,
            block,
            page,
        },
    ];
    let rules = Rules::new(true, true, false, 1);
    Ok(Problem::new(alloc, timing()?, rules, 0, &luns, &wants)?)
}

// The first data end at 10 + 100 + 20, the others 20 later.
#[test]
fn the_older_of_two_reads_ends_first(rt: HostRuntime) -> Result<(), Fail> {
    let alloc = rt.alloc();
    let problem = with_an_older_read(alloc)?;
    let by_age = early_by(Weighing::default(), Nodes::usual());
    let plan = by_age.plan(alloc, &problem, Limit::of(1000).unwrap())?;
    let first = Weights {
        wants: [1, 0, 0, 0, 0, 0, 0, 0],
        running: [[1; 4]; 8],
    };
    assert_eq!(rt; plan.finish, 150);
    assert_eq!(rt; cost_of(&problem, &plan.schedule, &first), 130);
    Ok(())
}
