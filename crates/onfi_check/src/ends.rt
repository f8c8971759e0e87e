ghost use Rattle.std.specs.Prelude.{◌≡◌, length};
ghost use Rattle.std.specs.List.{AllByRecursion as Each};
ghost use Rattle.onfi_problem.specs.Moves.{IsMove};
ghost use Rattle.onfi_problem.specs.Position.{moves_of};
ghost use Rattle.onfi_problem.specs.Starts.{IsNamed};
ghost use Rattle.onfi_check.specs.Ends.{AreLastEnds, IsLastEnd, later_of};

use onfi_problem::{Move, Problem};

/// For each LUN by when its moves end, in ns, where each starts at its earliest; None where it has no move.
#[inline(always)]
pub fn last_ends(problem: &Problem, moves: &[Move]) -> [Option<u64>; 8]
    requires moves { Each (IsMove problem.now.problem) (moves_of problem.now.groups moves.now) }
    requires named { Each (IsNamed problem.now.groups) moves.now }
    ensures ends { AreLastEnds problem.now.problem (moves_of problem.now.groups moves.now) result }
    ensures length { length result ≡ 8 }
{
    let mut ends = [None; 8];
    for m in moves {
        let lun = m.lun() as usize;
        let end = problem.end_of(*m);
        ends[lun] = choose_later(ends[lun], end);
    }
    ends
}

/// By when the moves of one LUN end, in ns, where each starts at its earliest; None where it has no move.
pub(crate) fn last_end(problem: &Problem, moves: &[Move], lun: u8) -> Option<u64>
    requires moves { Each (IsMove problem.now.problem) (moves_of problem.now.groups moves.now) }
    requires named { Each (IsNamed problem.now.groups) moves.now }
    ensures { IsLastEnd problem.now.problem (moves_of problem.now.groups moves.now) lun result }
{
    let mut last = None;
    for m in moves {
        if m.lun() == lun {
            last = choose_later(last, problem.end_of(*m));
        }
    }
    last
}

// The later of two ends, where there are two.
fn choose_later(known: Option<u64>, end: u64) -> Option<u64>
    ensures { result ≡ later_of known end }
{
    match known {
        Some(other) => Some(other.max(end)),
        None => Some(end),
    }
}
