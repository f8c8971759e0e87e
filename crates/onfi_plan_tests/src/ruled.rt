//! A plan by the rule, alone and as it is chosen.

use crate::rule_sample::{free, print_plan, timing, want};
use onfi_group::Rules;
use onfi_known_check::check_known_within;
use onfi_plan::{Certificate, Limit, Planner};
use onfi_planners::By;
use onfi_problem::Problem;
use onfi_steady::plan_by_rule;
use onfi_timing::Kind;
use std::test::Fail;

// The planner gives the same plan, and no node is opened. Where nothing can end sooner, the certificate shows it.
#[test]
fn the_planner_and_the_certificate(rt: HostRuntime) -> Result<(), Fail> {
    let alloc = rt.alloc();
    let luns = [free(0), free(0)];
    let wants = [want(0, Kind::Read, 1, 0), want(1, Kind::Read, 0, 0)];
    let rules = Rules::new(true, true, false, 1);
    let problem = Problem::new(alloc, timing(5)?, rules, 0, &luns, &wants)?;
    let plan = plan_by_rule(alloc, &problem)?;
    let by_planner = By::Rule.plan(alloc, &problem, Limit::of(1).unwrap())?;
    assert!(rt; print_plan(alloc, &plan)?.as_slice() == print_plan(alloc, &by_planner)?.as_slice());
    assert_eq!(rt; by_planner.opened, 0);
    let Certificate::Text(text) = &plan.certificate else {
        return Err(Fail::from("tokens"));
    };
    let checked = check_known_within(alloc, &problem, &plan.schedule, 100, text.as_slice());
    assert_eq!(rt; checked, Ok(100));
    Ok(())
}
