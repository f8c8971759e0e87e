//! What closes a node.

ghost use Rattle.std.specs.Prelude.{◌≤◌, ◌<◌, ◌^◌, IfOk, IfSome, IfNone, length, ℕ};
ghost use Rattle.onfi_group.specs.Words.{Pairs};
ghost use Rattle.onfi_bound.specs.Loads.{AreLoads};
ghost use Rattle.onfi_bound.specs.Reaching.{Reaches, ComesTo};
ghost use Rattle.onfi_check.specs.Nodes.{IsOpen};
ghost use Rattle.onfi_known_plan.specs.Walks.{ClosesBy, IsClosing};
ghost use Rattle.onfi_known_check.specs.declared.token.TheConstants.{MOST_KNOWN as most};

use crate::phases::Phases;
use crate::records::Records;
use onfi_bound::{Bound, BoundAt, Loads};
use onfi_cert::LunNumber;
use onfi_demand::{Demand, Window};
use onfi_known_check::Token;
use onfi_problem::Problem;
use std::alloc::AllocError;

/// A token that closes a node, and what that asks for.
#[derive(Clone, Copy)]
pub struct Closing {
    pub token: Token,
    pub demand: Demand,
}

/// The first that closes a node for the finish `e`, in ns: the bounds, a node that is known, the window bound.
///
/// # Errors
/// Only where memory was refused.
pub fn find_closing(
    problem: &Problem,
    loads: &Loads,
    e: u64,
    records: &Records,
    phases: &mut Phases,
) -> Result<Option<Closing>, AllocError>
    requires loads { AreLoads problem.now loads.now.of.items }
    requires rising { Pairs (λ a b. a.id < b.id) problem.now.all }
    requires few { length records.now.nodes.items ≤ most }
    ensures closing { IfOk result (λ found. IfSome found (IsClosing e problem.now records.now.nodes.items)) }
    ensures open { IfOk result (λ found. IfNone found (IsOpen e problem.now.problem)) }
{
    problem.in_limits();
    if let Some(closing) = by_bound(problem, loads, e) {
        return Ok(Some(closing));
    }
    if let Some(closing) = close_by_known(problem, records) {
        return Ok(Some(closing));
    }
    by_window(problem, loads, e, phases)
}

/// The first bound that closes a node for the finish `e`, in ns, or a window.
///
/// # Errors
/// Only where memory was refused.
pub fn bound_reaching(
    problem: &Problem,
    loads: &Loads,
    e: u64,
    phases: &mut Phases,
) -> Result<Option<Closing>, AllocError>
    requires { AreLoads problem.now loads.now.of.items }
    ensures closing { IfOk result (λ found. IfSome found (ClosesBy problem.now.problem e)) }
    ensures open { IfOk result (λ found. IfNone found (IsOpen e problem.now.problem)) }
{
    if let Some(closing) = by_bound(problem, loads, e) {
        return Ok(Some(closing));
    }
    by_window(problem, loads, e, phases)
}

// The first bound that reaches `e`.
fn by_bound(problem: &Problem, loads: &Loads, e: u64) -> Option<Closing>
    requires { AreLoads problem.now loads.now.of.items }
    ensures closing { IfSome result (ClosesBy problem.now.problem e) }
    ensures open { IfNone result (IsOpen e problem.now.problem) }
{
    match loads.closing(problem, e) {
        None => None,
        Some(first) => Some(bound_closing(problem, first, e)),
    }
}

/// The token of a bound that reaches `e`, in ns, and what it asks for.
pub fn bound_closing(problem: &Problem, first: BoundAt, e: u64) -> Closing
    requires reaches { Reaches problem.now.problem e first.bound }
    requires comes_to { ComesTo problem.now.problem first.at first.bound }
    ensures { ClosesBy problem.now.problem e result }
{
    problem.in_limits();
    match first.bound {
        Bound::Bus => Closing {
            token: Token::Bus,
            demand: Demand::of_bus_bound(problem, first.at, e),
        },
        Bound::Lead => Closing {
            token: Token::Lead,
            demand: Demand::of_lead(problem, e),
        },
        Bound::Trail => Closing {
            token: Token::Trail,
            demand: Demand::of_trail(problem, first.at, e),
        },
        Bound::Die(lun) => Closing {
            token: Token::Die(LunNumber::of(lun)),
            demand: Demand::of_die(problem, lun, first.at, e),
        },
    }
}

// A window that reaches `e`, where there is one.
fn by_window(
    problem: &Problem,
    loads: &Loads,
    e: u64,
    phases: &mut Phases,
) -> Result<Option<Closing>, AllocError>
    requires { AreLoads problem.now loads.now.of.items }
    ensures { IfOk result (λ found. IfSome found (ClosesBy problem.now.problem e)) }
{
    match phases.window(problem, loads, e)? {
        None => Ok(None),
        Some(window) => Ok(window_closing(problem, loads, window, e)),
    }
}

// The token of a window, where it reaches `e`.
fn window_closing(problem: &Problem, loads: &Loads, window: Window, e: u64) -> Option<Closing>
    requires loads { AreLoads problem.now loads.now.of.items }
    requires small { window.start < 2 ^ 63 × window.tail < 2 ^ 63 }
    ensures { IfSome result (ClosesBy problem.now.problem e) }
{
    let load = loads.of_waiting(problem)?;
    let demand = window.asks(problem, load, e)?;
    let Window { start, tail } = window;
    let token = Token::Window { start, tail };
    Some(Closing { token, demand })
}

// A node that is known, to which the same is left.
fn close_by_known(problem: &Problem, records: &Records) -> Option<Closing>
    requires rising { Pairs (λ a b. a.id < b.id) problem.now.all }
    requires few { length records.now.nodes.items ≤ most }
    ensures { (e : ℕ) → IfSome result (IsClosing e problem.now records.now.nodes.items) }
{
    problem.in_limits();
    let hit = records.find(problem)?;
    let token = Token::Again(hit.number);
    let demand = hit.demand;
    Some(Closing { token, demand })
}
