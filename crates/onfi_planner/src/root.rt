//! The root of a problem's tree.

ghost use Rattle.std.specs.Prelude.{IfOk};
ghost use Rattle.onfi_planner.specs.Planning.{IsRoot};

use crate::first::first_run;
use crate::search::Best;
use onfi_bound::Loads;
use onfi_problem::Problem;
use std::alloc::{AllocError, Global};

/// A problem that is to be searched, the loads of its LUNs, and the best schedule so far.
#[derive(Drop)]
pub struct Root {
    pub problem: Problem,
    pub loads: Loads,
    pub best: Best,
}

/// The root of a problem's tree, where the first schedule is the best so far.
///
/// # Errors
/// Only where memory was refused.
pub fn root_of(alloc: Global, problem: &Problem) -> Result<Root, AllocError>
    ensures { IfOk result (λ root. IsRoot problem.now root) }
{
    let mut problem = problem.copy(alloc)?;
    let mut steps = Vec::new(alloc);
    let finish = first_run(&mut problem, &mut steps)?;
    let loads = Loads::new(alloc, &problem)?;
    let best = Best { finish, steps };
    Ok(Root {
        problem,
        loads,
        best,
    })
}
