ghost use Rattle.std.specs.Prelude.{◌≡◌, MatchOption};
ghost use Rattle.onfi_problem.specs.Left.{InLimits};
ghost use Rattle.onfi_bound.specs.Bounds.{bus};
ghost use Rattle.onfi_bound.specs.Loads.{AreLoads};
ghost use Rattle.onfi_check.specs.Tree.{Closing, Closes, token_of};
ghost use Rattle.onfi_check.specs.Nodes.{IsOpen};

use onfi_bound::{Bound, Loads};
use onfi_cert::{LunNumber, Token};
use onfi_problem::Problem;

/// The token of the first bound that is at least `e` ns; None where the node is open. The bus bound comes to `bus_bound` ns.
#[inline(always)]
pub fn closing_token(problem: &Problem, loads: &Loads, bus_bound: u64, e: u64) -> Option<Token>
    requires limits { InLimits problem.now.problem }
    requires loads { AreLoads problem.now loads.now.of.items }
    requires bus { bus_bound ≡ bus problem.now.problem }
    ensures { MatchOption result (IsOpen e problem.now.problem) (λ token. (c : Closing) × (token_of c ≡ token) × Closes problem.now.problem e c) }
{
    match loads.closing_from(problem, bus_bound, e) {
        None => None,
        Some(first) => match first.bound {
            Bound::Bus => Some(Token::Bus),
            Bound::Lead => Some(Token::Lead),
            Bound::Trail => Some(Token::Trail),
            Bound::Die(lun) => Some(Token::Die(LunNumber::of(lun))),
        },
    }
}
