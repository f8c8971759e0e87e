ghost use Rattle.std.specs.Prelude.{◌≡◌, ◌<◌, ◌↔◌, ℕ, List, IsTrue, MatchOption, IfErr, IfSome, OnOk, length, slice_set, true};
ghost use Rattle.std.specs.List.{AllByRecursion as Each};
ghost use Rattle.onfi_problem.specs.Moves.{Move as OneMove, IsMove};
ghost use Rattle.onfi_problem.specs.Position.{moves_of};
ghost use Rattle.onfi_problem.specs.Starts.{IsNamed};
ghost use Rattle.onfi_check.specs.Ends.{IsAsked, IsLastEnd};
ghost use Rattle.onfi_check.specs.Faults.{IsYieldFault};
ghost use Rattle.onfi_check.specs.Reading.{Fits, IsYield};

use crate::ends::last_end;
use crate::fault::CertFault;
use onfi_problem::{Move, Problem};

/// By when the moves of a LUN end, in ns, where each starts at its earliest; None where it has no move.
#[derive(Clone, Copy)]
pub struct LastEnd {
    pub lun: u8,
    pub end: Option<u64>,
}

/// How the LUNs of a node stand while its children are read.
#[derive(Clone, Copy)]
pub struct Standing {
    /// When the moves of the LUN end that was yielded to last: children often yield to one LUN.
    pub asked: Option<LastEnd>,
    /// Whether an earlier child yields to the LUN.
    pub awaited: [bool; 8],
    /// Whether a child of one of its moves yields.
    pub leaving: [bool; 8],
}

// By when the moves of a LUN end, looked for only where another LUN was asked for last.
fn find_asked_end(
    problem: &Problem,
    moves: &[Move],
    asked: &mut Option<LastEnd>,
    lun: u8,
) -> Option<u64>
    requires moves { Each (IsMove problem.now.problem) (moves_of problem.now.groups moves.now) }
    requires named { Each (IsNamed problem.now.groups) moves.now }
    requires asked { IsAsked problem.now.problem (moves_of problem.now.groups moves.now) asked.old }
    ensures asked { IsAsked problem.now.problem (moves_of problem.now.groups moves.now) asked.new }
    ensures end { IsLastEnd problem.now.problem (moves_of problem.now.groups moves.now) lun result }
{
    if let Some(known) = *asked
        && known.lun == lun
    {
        return known.end;
    }
    let end = last_end(problem, moves, lun);
    *asked = Some(LastEnd { lun, end });
    end
}

// Whether a LUN whose moves end by then has moves, and each ends by the earliest start of those of LUN `own`.
fn fits(problem: &Problem, end: Option<u64>, own: u8) -> bool
    requires { own < length problem.now.problem.luns }
    ensures { (moves : List OneMove) (lun : ℕ) → IsLastEnd problem.now.problem moves lun end → IsTrue result ↔ Fits problem.now.problem moves own lun }
{
    match end {
        Some(end) => end <= problem.may_go(own),
        None => false,
    }
}

// What speaks against a yield of a move of LUN `own` to LUN `lun`, whose moves end by `end`, reported at that place.
fn yield_fault(
    problem: &Problem,
    standing: &Standing,
    end: Option<u64>,
    own: u8,
    lun: u8,
    place: usize,
) -> Option<CertFault>
    requires own { own < length problem.now.problem.luns }
    requires few { own < 8 }
    requires lun { lun < 8 }
    ensures loops_or_fits { (moves : List OneMove) → IsLastEnd problem.now.problem moves lun end → MatchOption result (IsYield problem.now.problem moves standing.now.awaited standing.now.leaving own lun) (λ _. IsYield problem.now.problem moves standing.now.awaited standing.now.leaving own lun → ⊥) }
    ensures kind { IfSome result (IsYieldFault standing.now own lun place) }
{
    if lun == own || standing.awaited[own as usize] || standing.leaving[lun as usize] {
        return Some(CertFault::YieldLoop(place));
    }
    if fits(problem, end, own) {
        None
    } else {
        Some(CertFault::YieldNoFit(place))
    }
}

/// Takes a yield of a move of LUN `own` to LUN `lun` that stands at that place, where `moves` are all of the node.
///
/// # Errors
/// `YieldLoop` where the move yields to its own LUN, to one of which a move yields, or was yielded to; else
/// `YieldNoFit` where the other LUN has no move, or one that ends later than this one may start.
pub(crate) fn take_yield(
    problem: &Problem,
    moves: &[Move],
    standing: &mut Standing,
    own: u8,
    lun: u8,
    place: usize,
) -> Result<(), CertFault>
    requires moves { Each (IsMove problem.now.problem) (moves_of problem.now.groups moves.now) }
    requires named { Each (IsNamed problem.now.groups) moves.now }
    requires asked { IsAsked problem.now.problem (moves_of problem.now.groups moves.now) standing.old.asked }
    requires own { own < length problem.now.problem.luns }
    requires few { own < 8 }
    requires lun { lun < 8 }
    ensures asked { IsAsked problem.now.problem (moves_of problem.now.groups moves.now) standing.new.asked }
    ensures ok { OnOk result (IsYield problem.now.problem (moves_of problem.now.groups moves.now) standing.old.awaited standing.old.leaving own lun) }
    ensures awaited { OnOk result (standing.new.awaited ≡ slice_set standing.old.awaited lun true) }
    ensures leaving { OnOk result (standing.new.leaving ≡ slice_set standing.old.leaving own true) }
    ensures err { IfErr result (λ _. IsYield problem.now.problem (moves_of problem.now.groups moves.now) standing.old.awaited standing.old.leaving own lun → ⊥) }
    ensures kind { IfErr result (IsYieldFault standing.old own lun place) }
{
    let end = find_asked_end(problem, moves, &mut standing.asked, lun);
    if let Some(fault) = yield_fault(problem, standing, end, own, lun, place) {
        return Err(fault);
    }
    standing.awaited[lun as usize] = true;
    standing.leaving[own as usize] = true;
    Ok(())
}
