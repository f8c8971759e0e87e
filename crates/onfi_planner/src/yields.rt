ghost use Rattle.std.specs.Prelude.{◌≡◌, ◌≢◌, ◌≤◌, ◌<◌, ℕ, Some, None, IfSome, length, slice_index_or};
ghost use Rattle.onfi_problem.specs.Position.{moves_of};
ghost use Rattle.onfi_check.specs.Ends.{IsLastEnd};
ghost use Rattle.onfi_planner.specs.Opening.{AreYields, YieldsSoFar, yield_at};

use onfi_problem::{Move, Problem};

/// For each LUN the one that its moves yield to: the least that has moves which all end by their earliest start, and
/// which doesn't yield itself. A LUN that an earlier one yields to doesn't yield.
///
/// `ends` says for each LUN by when its moves end.
pub fn yields_of(problem: &Problem, moves: &[Move], ends: &[Option<u64>; 8]) -> [Option<u8>; 8]
    requires ends { (lun : ℕ) → lun < 8 → IsLastEnd problem.now.problem (moves_of problem.now.groups moves.now) lun (slice_index_or ends.now lun None) }
    ensures yields { AreYields problem.now.problem (moves_of problem.now.groups moves.now) result }
    ensures length { length result ≡ 8 }
{
    let mut yields = [None; 8];
    let mut awaited = [false; 8];
    for own in 0..problem.lun_count() as u8 {
        // (each move ends after the bus is free, so a LUN that may go by then yields to none)
        if ends[own as usize].is_some() && problem.may_go(own) > problem.bus_free() {
            decide(problem, moves, ends, own, &mut yields, &mut awaited);
        }
    }
    yields
}

// Decides to which LUN the moves of the next LUN yield.
fn decide(
    problem: &Problem,
    moves: &[Move],
    ends: &[Option<u64>; 8],
    own: u8,
    yields: &mut [Option<u8>; 8],
    awaited: &mut [bool; 8],
)
    requires ends { (lun : ℕ) → lun < 8 → IsLastEnd problem.now.problem (moves_of problem.now.groups moves.now) lun (slice_index_or ends.now lun None) }
    requires own { own < length problem.now.problem.luns }
    requires small { own < 8 }
    requires so_far { YieldsSoFar problem.now.problem (moves_of problem.now.groups moves.now) yields.old awaited.old }
    ensures { YieldsSoFar problem.now.problem (moves_of problem.now.groups moves.now) yields.new awaited.new }
{
    if awaited[own as usize] {
        return;
    }
    if let Some(lun) = yield_of(problem.may_go(own), ends, yields, own) {
        yields[own as usize] = Some(lun);
        awaited[lun as usize] = true;
    }
}

// The least other LUN that doesn't yield and whose moves end by that time.
fn yield_of(time: u64, ends: &[Option<u64>; 8], yields: &[Option<u8>; 8], own: u8) -> Option<u8>
    ensures { IfSome result (λ lun. (lun < 8) × (lun ≢ own) × (yield_at yields.now lun ≡ None) × ((e : ℕ) × (slice_index_or ends.now lun None ≡ Some e) × (e ≤ time))) }
{
    for lun in 0..8u8 {
        if lun != own
            && yields[lun as usize].is_none()
            && let Some(end) = ends[lun as usize]
            && end <= time
        {
            return Some(lun);
        }
    }
    None
}
