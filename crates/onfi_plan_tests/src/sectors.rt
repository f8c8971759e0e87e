//! Plans of reads of some sectors.

use crate::rule_sample::print_plan;
use crate::sample::free;
use onfi_addr::Place;
use onfi_group::{Group, Rules};
use onfi_known_plan::plan_within;
use onfi_plan::{Limit, Planner};
use onfi_planners::{By, Nodes, Weights, cost_of, make_better};
use onfi_problem::{LunState, Problem};
use onfi_request::Want;
use onfi_samples::{sample_timing, want_of};
use onfi_steady::plan_by_rule;
use onfi_timing::{Kind, Timing};
use std::alloc::Global;
use std::test::Fail;

// A quarter of a page.
const SECTOR: Kind = Kind::ReadSectors { first: 0, count: 1 };
// A half.
const SECTORS: Kind = Kind::ReadSectors { first: 0, count: 2 };

// The data output of a page takes 11,000 ns, that of one to three sectors 3,080, 5,720 and 8,360.
fn timing() -> Result<Timing, Fail> {
    let timing = sample_timing()
        .with_sectors(1, 3080)?
        .with_sectors(2, 5720)?
        .with_sectors(3, 8360)?;
    Ok(timing)
}

fn read(id: u64, kind: Kind, lun: u8, block: u16, page: u16) -> Want {
    want_of(id, kind, Place { lun, block, page })
}

fn posed(alloc: Global, luns: &[LunState], wants: &[Want]) -> Result<Problem, Fail> {
    let rules = Rules::new(true, true, false, 1);
    Ok(Problem::new(alloc, timing()?, rules, 0, luns, wants)?)
}

// Weights of two requests that wait.
fn weighted(page: u16, sector: u16) -> Weights {
    Weights {
        wants: [page, sector, 0, 0, 0, 0, 0, 0],
        running: [[0; 4]; 8],
    }
}

// When a plan ends in which what counts more ends sooner, and what it costs.
fn weighed(alloc: Global, problem: &Problem, weights: &Weights) -> Result<(u64, u128), Fail> {
    let plan = By::Within.plan(alloc, problem, Limit::of(1000).unwrap())?;
    let plan = make_better(alloc, problem, plan, weights, Nodes::usual())?;
    let cost = cost_of(problem, &plan.schedule, weights);
    Ok((plan.finish, cost))
}

// A page of one LUN and a sector of another. The first data are ready at 25,240; both are put out at 25,240 + 11,000 + 3,080,
// whichever goes first. Where both count alike, the sector ends at 28,320 and the page at 39,320; a page that counts ten times
// goes first, and ends at 36,240.
#[test]
fn what_counts_more_goes_first_by_its_own_output(rt: HostRuntime) -> Result<(), Fail> {
    let alloc = rt.alloc();
    let wants = [read(0, Kind::Read, 0, 0, 0), read(1, SECTOR, 1, 0, 0)];
    let problem = posed(alloc, &[free(), free()], &wants)?;
    let alike = weighed(alloc, &problem, &weighted(1, 1))?;
    assert_eq!(rt; alike, (39_320, 28_320 + 39_320));
    let page = weighed(alloc, &problem, &weighted(10, 1))?;
    assert_eq!(rt; page, (39_320, 10 * 36_240 + 39_320));
    Ok(())
}

// A pair in its commands, whose members put out two sectors and one, and a page of another LUN. The page goes first: its data
// are ready at 25,240, those of the pair 1,000 later; then the two sectors end at 41,960 and the one at 45,040.
#[test]
fn each_member_of_what_runs_puts_out_its_own(rt: HostRuntime) -> Result<(), Fail> {
    let alloc = rt.alloc();
    let pair = [read(0, SECTORS, 0, 0, 0), read(1, SECTOR, 0, 1, 0)];
    let running = LunState::Running {
        group: Group::of(alloc, &pair),
        next: 1,
        ready: 1000,
    };
    let problem = posed(alloc, &[running, free()], &[read(0, Kind::Read, 1, 0, 0)])?;
    let plan = plan_within(alloc, &problem, Limit::of(1000).unwrap())?;
    assert_eq!(rt; plan.finish, 45_040);
    let mut weights = weighted(1, 0);
    weights.running[0] = [3, 5, 0, 0];
    let cost = 36_240 + 3 * 41_960 + 5 * 45_040;
    assert_eq!(rt; cost_of(&problem, &plan.schedule, &weights), cost);
    Ok(())
}

// A page and a sector of two planes: after two commands, with a gap of 600 between them, and one array time the page is put out
// at 25,980, the sector at 36,980.
#[test]
fn the_rule_begins_reads_of_other_sectors_as_one(rt: HostRuntime) -> Result<(), Fail> {
    let alloc = rt.alloc();
    let wants = [read(0, Kind::Read, 0, 0, 0), read(1, SECTOR, 0, 1, 0)];
    let problem = posed(alloc, &[free()], &wants)?;
    let plan = plan_by_rule(alloc, &problem)?;
    let shown = print_plan(alloc, &plan)?;
    assert!(rt; shown.as_slice() == b"40060 40060|; 0 1: 0 740 25980 36980".as_slice());
    Ok(())
}
