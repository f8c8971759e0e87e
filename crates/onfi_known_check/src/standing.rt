//! How the LUNs of a node stand while its children are read.

ghost use Rattle.std.specs.Prelude.{◌≡◌, ◌≢◌, ◌≤◌, ◌<◌, ◌^◌, ◌↔◌, ℕ, [], false, List, IfSome, IfNone, OnOk, IfErr, length, slice_index, None, Some};
ghost use Rattle.std.specs.List.{AllByRecursion as Each};
ghost use Rattle.onfi_problem.specs.Moves.{Move as OneMove, IsMove, move_lun, may_go};
ghost use Rattle.onfi_check.specs.Ends.{AreLastEnds};
ghost use Rattle.onfi_demand.specs.Asked.{GoesOn};
ghost use Rattle.onfi_known_check.specs.Faults.{IsYieldFault};
ghost use Rattle.onfi_known_check.specs.Proves.{FitTimes, MayYield, Yielded, with_yields};
ghost use Rattle.onfi_known_check.specs.declared.given.Given.{Given as OneGiven};

use crate::fault::KnownFault;
use crate::given::Given;
use arrayvec::ArrayVec;
use onfi_check::CertFault;
use onfi_demand::{Step, has_left};
use onfi_problem::Problem;

/// What is asked of each LUN so far, in ns, and which children yield.
#[derive(Drop)]
pub struct Standing {
    pub asked: [u64; 8],
    pub given: ArrayVec<Given, 87>,
}

impl Standing {
    /// Before the first child.
    pub fn new() -> Standing
        ensures asked { (lun : ℕ) → slice_index result.asked lun ≡ 0 }
        ensures given { result.given.items ≡ [] }
    {
        Standing {
            asked: [0; 8],
            given: ArrayVec::new(),
        }
    }

    /// From when on each LUN must go on, where those that yield wait for the LUNs that they yield to; None where one of
    /// these is no number of 64 bits.
    pub fn times(&self) -> Option<[u64; 8]>
        ensures value { IfSome result (λ times. (lun : ℕ) → lun < 8 → slice_index times lun ≡ with_yields self.now.asked self.now.given.items lun) }
        ensures fits { IfSome result (λ _. FitTimes self.now.asked self.now.given.items) }
        ensures none { IfNone result (FitTimes self.now.asked self.now.given.items → ⊥) }
    {
        let mut times = [0; 8];
        for lun in 0..8usize {
            times[lun] = self.time_of(lun)?;
        }
        Some(times)
    }

    // What is asked of a LUN; of one that isn't there nothing is.
    fn asked_of(&self, lun: usize) -> u64
        ensures { result ≡ slice_index self.now.asked lun }
    {
        match self.asked.get(lun) {
            Some(time) => *time,
            None => 0,
        }
    }

    // That of one LUN.
    fn time_of(&self, lun: usize) -> Option<u64>
        requires { lun < 8 }
        ensures value { IfSome result (λ time. time ≡ with_yields self.now.asked self.now.given.items lun) }
        ensures small { IfSome result (λ time. time < 2 ^ 64) }
        ensures none { IfNone result (2 ^ 64 ≤ with_yields self.now.asked self.now.given.items lun) }
    {
        let mut time = self.asked_of(lun);
        for y in self.given.as_slice() {
            if y.own as usize == lun {
                let later = self.asked_of(y.lun as usize).checked_add(y.longest)?;
                time = time.max(later);
            }
        }
        Some(time)
    }
}

/// How the phase stands of the move of that LUN that was just made and that started then, in ns: what a tree asks of the
/// LUNs is raised by it.
pub fn step_after(problem: &Problem, lun: u8, start: u64) -> Step
    requires { lun < length problem.now.problem.luns }
    ensures lun { result.lun ≡ lun }
    ensures start { result.start ≡ start }
    ensures end { result.end ≡ problem.now.problem.bus_free }
    ensures go { GoesOn problem.now.problem lun result.go }
{
    let go = if has_left(problem, lun) {
        Some(problem.may_go(lun))
    } else {
        None
    };
    Step {
        lun,
        start,
        end: problem.bus_free(),
        go,
    }
}

// Whether a yield of a move of LUN `own` to LUN `lun` goes round with those before it.
fn goes_round(given: &[Given], own: u8, lun: u8) -> bool
    ensures { result ≡ false ↔ (Each (λ g. g.lun ≢ own) given.now × Each (λ g. g.own ≢ lun) given.now) }
{
    for y in given {
        if y.lun == own || y.own == lun {
            return true;
        }
    }
    false
}

/// Takes a yield of a move of LUN `own` to LUN `lun` that stands at that place, where the moves of each LUN end by
/// `ends`.
///
/// # Errors
/// `YieldLoop` where the move yields to its own LUN, to one of which a move yields, or was yielded to; else
/// `YieldNoFit` where the other LUN has no move, or one that ends later than this one may start.
pub(crate) fn take_yield(
    problem: &Problem,
    ends: &[Option<u64>; 8],
    standing: &mut Standing,
    own: u8,
    lun: u8,
    place: usize,
) -> Result<(), KnownFault>
    requires own { own < length problem.now.problem.luns }
    requires lun { lun < 8 }
    requires room { length standing.old.given.items < 87 }
    ensures asked { standing.new.asked ≡ standing.old.asked }
    ensures err { IfErr result (λ _. (moves : List OneMove) (m : OneMove) (y : OneGiven) → Each (IsMove problem.now.problem) moves → AreLastEnds problem.now.problem moves ends.now → move_lun m ≡ own → y.lun ≡ lun → MayYield problem.now.problem moves standing.old.given.items m y → ⊥) }
    ensures kind { IfErr result (IsYieldFault standing.old.given.items own lun place) }
    ensures ok { OnOk result (Yielded problem.now.problem ends.now standing.old.given.items own lun standing.new.given.items) }
{
    problem.in_limits();
    if lun == own || goes_round(&standing.given, own, lun) {
        return Err(KnownFault::Cert(CertFault::YieldLoop(place)));
    }
    let Some(end) = ends[lun as usize] else {
        return Err(KnownFault::Cert(CertFault::YieldNoFit(place)));
    };
    if lun as usize >= problem.lun_count() || end > problem.may_go(own) {
        return Err(KnownFault::Cert(CertFault::YieldNoFit(place)));
    }
    standing.given.push(Given {
        own,
        lun,
        longest: end.saturating_sub(problem.may_go(lun)),
    });
    Ok(())
}
