//! Tokens that close a node.

ghost use Rattle.std.specs.Prelude.{◌≢◌, ℕ, ◌<◌, ◌↔◌, ◌∷◌, IsTrue, IfOk, IfErr, IfSome, IfNone, List};
ghost use Rattle.onfi_group.specs.Words.{Pairs};
ghost use Rattle.onfi_demand.specs.Kept.{IsKept};
ghost use Rattle.onfi_demand.specs.declared.demand.Demand.{Demand as OneDemand};
ghost use Rattle.onfi_known_check.specs.Closing.{Closes, closing_demand};
ghost use Rattle.onfi_known_check.specs.Faults.{FaultFits, IsNameFault};
ghost use Rattle.onfi_known_check.specs.Proves.{IsAgain};
ghost use Rattle.onfi_known_check.specs.declared.token.Token.{Token as OneToken};

use crate::fault::KnownFault;
use crate::known::Known;
use crate::token::Token;
use onfi_bound::{Load, bus, die, lead, trail};
use onfi_check::{CertFault, is_over};
use onfi_demand::{Demand, Window};
use onfi_problem::Problem;

// What the bus bound asks for, where it reaches the finish `e`, in ns.
fn bus_asks(problem: &Problem, e: u64) -> Option<Demand>
    ensures some { IfSome result (λ d. Closes problem.now.problem e Token.Bus × IsKept d (closing_demand problem.now.problem e Token.Bus)) }
    ensures none { IfNone result (Closes problem.now.problem e Token.Bus → ⊥) }
{
    let at = bus(problem);
    if at < e {
        return None;
    }
    Some(Demand::of_bus_bound(problem, at, e))
}

// .. the lead bound.
fn lead_asks(problem: &Problem, e: u64) -> Option<Demand>
    ensures some { IfSome result (λ d. Closes problem.now.problem e Token.Lead × IsKept d (closing_demand problem.now.problem e Token.Lead)) }
    ensures none { IfNone result (Closes problem.now.problem e Token.Lead → ⊥) }
{
    if lead(problem) < e {
        return None;
    }
    Some(Demand::of_lead(problem, e))
}

// .. the trail bound.
fn trail_asks(problem: &Problem, e: u64) -> Option<Demand>
    ensures some { IfSome result (λ d. Closes problem.now.problem e Token.Trail × IsKept d (closing_demand problem.now.problem e Token.Trail)) }
    ensures none { IfNone result (Closes problem.now.problem e Token.Trail → ⊥) }
{
    let at = trail(problem)?;
    if at < e {
        return None;
    }
    Some(Demand::of_trail(problem, at, e))
}

// .. the die bound of a LUN.
fn die_asks(problem: &Problem, lun: u8, e: u64) -> Option<Demand>
    ensures some { IfSome result (λ d. Closes problem.now.problem e (Token.Die lun) × IsKept d (closing_demand problem.now.problem e (Token.Die lun))) }
    ensures none { IfNone result (Closes problem.now.problem e (Token.Die lun) → ⊥) }
{
    if lun as usize >= problem.lun_count() {
        return None;
    }
    let at = die(problem, lun);
    if at < e {
        return None;
    }
    Some(Demand::of_die(problem, lun, at, e))
}

// .. a window.
fn window_asks(problem: &Problem, window: Window, e: u64) -> Option<Demand>
    ensures some { IfSome result (λ d. Closes problem.now.problem e (Token.Window window.start window.tail) × IsKept d (closing_demand problem.now.problem e (Token.Window window.start window.tail))) }
    ensures none { IfNone result (Closes problem.now.problem e (Token.Window window.start window.tail) → ⊥) }
{
    problem.in_limits();
    let load = Load::of(problem, problem.waiting());
    window.asks(problem, &load, e)
}

// What a node asks for to which nothing is left, where that much time has passed.
fn end_asks(problem: &Problem, e: u64) -> Option<Demand>
    ensures some { IfSome result (λ d. Closes problem.now.problem e Token.End × IsKept d (closing_demand problem.now.problem e Token.End)) }
    ensures none { IfNone result (Closes problem.now.problem e Token.End → ⊥) }
{
    if is_over(problem, e) {
        Some(Demand::of_bus(e))
    } else {
        None
    }
}

// What a token asks for, where it closes the node of a problem for the finish `e`, in ns.
fn closing_asks(problem: &Problem, token: &Token, e: u64) -> Option<Demand>
    ensures some { IfSome result (λ d. Closes problem.now.problem e token.now × IsKept d (closing_demand problem.now.problem e token.now)) }
    ensures none { IfNone result (Closes problem.now.problem e token.now → ⊥) }
{
    match *token {
        Token::Bus => bus_asks(problem, e),
        Token::Lead => lead_asks(problem, e),
        Token::Trail => trail_asks(problem, e),
        Token::Die(lun) => die_asks(problem, lun.get(), e),
        Token::End => end_asks(problem, e),
        Token::Window { start, tail } => window_asks(problem, Window { start, tail }, e),
        Token::Branch(_) | Token::Yield(_) | Token::Again(_) => None,
    }
}

// What speaks against a token that closes no node, reported at that place.
fn closing_fault(token: Token, place: usize) -> KnownFault
    requires no_branch { (width : ℕ) → token ≢ Token.Branch width }
    requires no_name { (number : ℕ) → token ≢ Token.Again number }
    ensures { (behind left : List OneToken) → FaultFits place (token ∷ behind) left result }
{
    match token {
        Token::Yield(_) => KnownFault::Cert(CertFault::YieldNoFit(place)),
        Token::End => KnownFault::Cert(CertFault::NotEnd(place)),
        _ => KnownFault::Cert(CertFault::BoundLow(place)),
    }
}

/// Reads a token that closes a node by a bound, and returns what that asks for.
pub(crate) fn read_closing(
    problem: &Problem,
    e: u64,
    token: Token,
    place: usize,
) -> Result<Demand, KnownFault>
    requires no_branch { (width : ℕ) → token ≢ Token.Branch width }
    requires no_name { (number : ℕ) → token ≢ Token.Again number }
    ensures ok { IfOk result (λ d. Closes problem.now.problem e token × IsKept d (closing_demand problem.now.problem e token)) }
    ensures err { IfErr result (λ _. Closes problem.now.problem e token → ⊥) }
    ensures kind { IfErr result (λ fault. (behind left : List OneToken) → FaultFits place (token ∷ behind) left fault) }
{
    match closing_asks(problem, &token, e) {
        Some(demand) => Ok(demand),
        None => Err(closing_fault(token, place)),
    }
}

/// Reads a token that closes a node by one that was read.
pub(crate) fn read_again(
    problem: &Problem,
    known: &[Known],
    number: u32,
    place: usize,
) -> Result<Demand, KnownFault>
    requires { Pairs (λ a b. a.id < b.id) problem.now.all }
    ensures ok { IfOk result (λ d. IsAgain problem.now.all problem.now.problem known.now number d) }
    ensures err { IfErr result (λ _. (d : OneDemand) → IsAgain problem.now.all problem.now.problem known.now number d → ⊥) }
    ensures kind { IfErr result (IsNameFault place) }
{
    let Some(node) = known.get(number as usize) else {
        return Err(KnownFault::Unknown(place));
    };
    if !node.describes(problem) {
        return Err(KnownFault::OtherLeft(place));
    }
    if !node.is_met(problem) {
        return Err(KnownFault::Sooner(place));
    }
    Ok(Demand {
        bus: 0,
        luns: node.times,
    })
}
