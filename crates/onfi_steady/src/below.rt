//! What the bounds of a problem show.

ghost use Rattle.std.specs.Prelude.{◌≡◌};
ghost use Rattle.onfi_steady.specs.Below.{IsGreatest, IsGreatestBefore, IsOfLun, greater, token_by};

use onfi_bound::{Bound, BoundAt, bus, die, lead, trail};
use onfi_cert::LunNumber;
use onfi_known_check::Token;
use onfi_problem::Problem;

/// The greatest of the bounds of a problem; of equals the first in the order bus, lead, trail, dies by rising LUN.
pub fn greatest_bound(problem: &Problem) -> BoundAt
    ensures { IsGreatest problem.now.problem result }
{
    let mut greatest = greatest_of_bus(problem);
    for lun in 0..problem.lun_count() as u8 {
        greatest = choose_greater(greatest, Bound::Die(lun), die(problem, lun));
    }
    greatest
}

// The greatest of those that no LUN has alone.
fn greatest_of_bus(problem: &Problem) -> BoundAt
    ensures { IsGreatestBefore problem.now.problem 3 result }
{
    let by_bus = BoundAt {
        bound: Bound::Bus,
        at: bus(problem),
    };
    let greatest = choose_greater(by_bus, Bound::Lead, lead(problem));
    match trail(problem) {
        Some(at) => choose_greater(greatest, Bound::Trail, at),
        None => greatest,
    }
}

// A bound where it comes to more than what was the greatest before; else that one.
fn choose_greater(greatest: BoundAt, bound: Bound, at: u64) -> BoundAt
    ensures { result ≡ greater greatest bound at }
{
    if at > greatest.at {
        BoundAt { bound, at }
    } else {
        greatest
    }
}

/// The token of a certificate that remembers states, and is closed by that bound at once.
pub fn token_of(bound: Bound) -> Token
    requires { IsOfLun bound }
    ensures { result ≡ token_by bound }
{
    match bound {
        Bound::Bus => Token::Bus,
        Bound::Lead => Token::Lead,
        Bound::Trail => Token::Trail,
        Bound::Die(lun) => Token::Die(LunNumber::of(lun)),
    }
}
