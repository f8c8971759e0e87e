ghost use Rattle.std.specs.Prelude.{◌≡◌, ℕ, ◌≤◌, ◌↔◌, ◌<◌, IsTrue, IfSome, IfNone, MatchOption, Some};
ghost use Rattle.onfi_bound.specs.Reaching.{Reaches, NoneReaches, IsFirstAt};

use crate::bound::{Bound, BoundAt};
use crate::bounds::{bus, die, lead, trail};
use crate::load::Load;
use onfi_problem::Problem;

/// The first bound that is at least `e` ns, tried in the order bus, lead, trail, then dies by rising LUN; None exactly
/// where no bound is.
#[inline(never)]
pub fn closing(problem: &Problem, e: u64) -> Option<BoundAt>
    ensures { MatchOption result (NoneReaches problem.now.problem e) (λ first. IsFirstAt problem.now.problem e first) }
{
    problem.in_limits();
    Load::of(problem, problem.waiting()).closing(problem, e)
}

/// Whether a bound is at least `e` ns; the trail bound is not where no command is left, nor is the die bound of a LUN
/// that is not there.
pub fn reaches(problem: &Problem, bound: Bound, e: u64) -> bool
    ensures { IsTrue result ↔ Reaches problem.now.problem e bound }
{
    match bound {
        Bound::Bus => bus(problem) >= e,
        Bound::Lead => lead(problem) >= e,
        Bound::Trail => is_reached(trail(problem), e),
        Bound::Die(lun) => (lun as usize) < problem.lun_count() && die(problem, lun) >= e,
    }
}

/// What a bound comes to, where there is one and it is at least `e` ns.
pub fn at_least(bound: Option<u64>, e: u64) -> Option<u64>
    ensures some { IfSome result (λ t. (bound ≡ Some t) × (e ≤ t)) }
    ensures none { IfNone result ((t : ℕ) → bound ≡ Some t → t < e) }
{
    match bound {
        Some(t) => { if t >= e { Some(t) } else { None } }
        None => None,
    }
}

/// Whether there is a bound and it is at least `e` ns.
pub fn is_reached(bound: Option<u64>, e: u64) -> bool
    ensures { IsTrue result ↔ ((t : ℕ) × (bound ≡ Some t) × (e ≤ t)) }
{
    match bound {
        Some(t) => t >= e,
        None => false,
    }
}
