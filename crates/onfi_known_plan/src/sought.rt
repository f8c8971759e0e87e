//! The greatest number that a bound of a problem shows.

ghost use Rattle.std.specs.Prelude.{◌≡◌, ◌-◌, ◌≤◌, ◌<◌, ℕ, IfOk};
ghost use Rattle.onfi_bound.specs.Loads.{AreLoads};
ghost use Rattle.onfi_known_plan.specs.Within.{IsSought};

use crate::closing::{Closing, bound_closing, bound_reaching};
use crate::phases::Phases;
use onfi_bound::{Bound, BoundAt, Loads, bus};
use onfi_problem::Problem;
use std::alloc::{AllocError, Global};

/// The greatest number that is found to be shown by a bound, while it is looked for, in ns: `below` is shown by this
/// closing, and nothing above `most` is shown.
#[derive(Clone, Copy)]
pub struct Sought {
    pub below: u64,
    pub closing: Closing,
    pub most: u64,
}

/// The greatest number up to `finish`, in ns, that a bound of the problem or a window shows.
///
/// # Errors
/// Only where memory was refused.
pub fn greatest_bound(
    alloc: Global,
    problem: &Problem,
    loads: &Loads,
    finish: u64,
) -> Result<Sought, AllocError>
    requires { AreLoads problem.now loads.now.of.items }
    ensures sought { IfOk result (IsSought problem.now.problem finish) }
    ensures found { IfOk result (λ sought. sought.below ≡ sought.most) }
{
    let mut phases = Phases::new(alloc);
    let by_bus = BoundAt {
        bound: Bound::Bus,
        at: bus(problem),
    };
    let sought = Sought {
        below: 0,
        closing: bound_closing(problem, by_bus, 0),
        most: finish,
    };
    narrow(problem, loads, &mut phases, sought)
}

// Halves what is between the two numbers until they are one.
fn narrow(
    problem: &Problem,
    loads: &Loads,
    phases: &mut Phases,
    sought: Sought,
) -> Result<Sought, AllocError>
    requires loads { AreLoads problem.now loads.now.of.items }
    requires sought { sought.below ≤ sought.most }
    ensures sought { (finish : ℕ) → IsSought problem.now.problem finish sought → IfOk result (IsSought problem.now.problem finish) }
    ensures found { IfOk result (λ sought. sought.below ≡ sought.most) }
{
    if sought.below == sought.most {
        return Ok(sought);
    }
    let half = halve(problem, loads, phases, sought)?;
    narrow(problem, loads, phases, half)
}

// Tries the number in the middle.
fn halve(
    problem: &Problem,
    loads: &Loads,
    phases: &mut Phases,
    sought: Sought,
) -> Result<Sought, AllocError>
    requires loads { AreLoads problem.now loads.now.of.items }
    requires sought { sought.below < sought.most }
    ensures less { IfOk result (λ half. half.most - half.below < sought.most - sought.below) }
    ensures within { IfOk result (λ half. half.below ≤ half.most) }
    ensures sought { (finish : ℕ) → IsSought problem.now.problem finish sought → IfOk result (IsSought problem.now.problem finish) }
{
    let middle = sought.most - (sought.most - sought.below) / 2;
    match bound_reaching(problem, loads, middle, phases)? {
        Some(closing) => Ok(Sought {
            below: middle,
            closing,
            most: sought.most,
        }),
        None => Ok(Sought {
            below: sought.below,
            closing: sought.closing,
            most: middle - 1,
        }),
    }
}
