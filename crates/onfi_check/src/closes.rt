ghost use Rattle.std.specs.Prelude.{◌≡◌, ◌⊎◌, ◌↔◌, IsTrue};
ghost use Rattle.onfi_bound.specs.Commands.{AreNodeBounds};
ghost use Rattle.onfi_problem.specs.Moves.{IsMove, after};
ghost use Rattle.onfi_problem.specs.Position.{move_of};
ghost use Rattle.onfi_problem.specs.Starts.{IsNamed};
ghost use Rattle.onfi_check.specs.Tree.{Closes, Closing, AtEnd, token_of};

use onfi_bound::{Bound, NodeBounds, reaches};
use onfi_cert::Token;
use onfi_problem::{Move, Problem};

/// Whether a token closes the node of a problem for the finish `e`, in ns: its bound reaches it, or nothing is left and
/// that much time has passed.
pub(crate) fn closes(problem: &Problem, bounds: NodeBounds, token: &Token, e: u64) -> bool
    requires { AreNodeBounds problem.now.problem bounds }
    ensures { IsTrue result ↔ ((c : Closing) × (token_of c ≡ token.now) × Closes problem.now.problem e c) }
{
    match *token {
        Token::Bus => reaches(problem, Bound::Bus, e),
        Token::Lead => reaches(problem, Bound::Lead, e),
        Token::Trail => bounds.commands.trail_reaches(problem, e),
        Token::Die(lun) => reaches(problem, Bound::Die(lun.get()), e),
        Token::End => is_over(problem, e),
        Token::Branch(_) | Token::Yield(_) => false,
    }
}

/// Whether a bus or a trail token closes the node after a move for the finish `e`, in ns, where `bounds` are those before the
/// move. Most leaves are such, so the move isn't made for them.
pub(crate) fn closes_after(
    problem: &Problem,
    bounds: NodeBounds,
    token: Token,
    m: Move,
    e: u64,
) -> bool
    requires bounds { AreNodeBounds problem.now.problem bounds }
    requires leaf { (token ≡ Token.Bus) ⊎ (token ≡ Token.Trail) }
    requires step { IsMove problem.now.problem (move_of problem.now.groups m) }
    requires named { IsNamed problem.now.groups m }
    ensures { IsTrue result ↔ ((c : Closing) × (token_of c ≡ token) × Closes (after problem.now.problem (move_of problem.now.groups m)) e c) }
{
    match token {
        Token::Bus => bounds.bus_reaches_after(problem, m, e),
        _ => bounds.commands.trail_reaches_after(problem, m, e),
    }
}

/// Whether nothing is left of a problem and the bus is free at `e` ns or later, which closes a node for the finish `e`.
pub fn is_over(problem: &Problem, e: u64) -> bool
    ensures { IsTrue result ↔ Closes problem.now.problem e AtEnd }
{
    problem.bus_free() >= e && problem.steps().is_empty()
}
