//! What is remembered of nodes.

ghost use Rattle.std.specs.Prelude.{◌≡◌, ◌≤◌, ◌<◌, ◌↔◌, IsTrue, length, map, take, []};
ghost use Rattle.onfi_group.specs.Words.{Pairs};
ghost use Rattle.onfi_demand.specs.Demand.{Meets};
ghost use Rattle.onfi_demand.specs.Left.{has_left, left_on, Rest};
ghost use Rattle.onfi_demand.specs.Remaining.{posts_count};
ghost use Rattle.onfi_demand.specs.Work.{left_of};
ghost use Rattle.onfi_known_check.specs.Proves.{Describes, times_of};

use arrayvec::ArrayVec;
use onfi_demand::{LunLeft, has_left, left_on};
use onfi_problem::Problem;
use onfi_timing::Operation;

/// An open node that was read: what was left there, and from when on each LUN with something left must go on, in ns, so
/// that no schedule ends sooner.
#[derive(Drop)]
pub struct Known {
    /// Which of the wants that the walk began with wait.
    pub waiting: [bool; 8],
    /// What is left of what each LUN does.
    pub luns: ArrayVec<LunLeft, 8>,
    pub times: [u64; 8],
}

// Lists what is left of what each LUN does.
fn list_left(problem: &Problem, luns: &mut ArrayVec<LunLeft, 8>)
    requires { luns.old.items ≡ [] }
    ensures { map left_of luns.new.items ≡ map left_on problem.now.problem.luns }
{
    let count = problem.lun_count();
    for lun in 0..count {
        luns.push(left_on(problem, lun as u8));
    }
}

// Whether the first marks are the same.
fn are_same(marks: &[bool; 8], others: &[bool; 8], count: usize) -> bool
    requires { count ≤ 8 }
    ensures same { IsTrue result ↔ (take count marks.now ≡ take count others.now) }
    ensures marks { length marks.now ≡ 8 }
    ensures others { length others.now ≡ 8 }
{
    for i in 0..count {
        if marks[i] != others[i] {
            return false;
        }
    }
    true
}

// Whether the same is left of what two LUNs do.
fn is_same(one: LunLeft, other: LunLeft) -> bool
    ensures { IsTrue result ↔ (left_of one ≡ left_of other) }
{
    match one {
        LunLeft::Idle => matches!(other, LunLeft::Idle),
        LunLeft::Rest {
            operation,
            members,
            next,
            sectors,
        } => is_rest(other, operation, members, next, &sectors),
    }
}

// Whether that much of a group is left.
fn is_rest(left: LunLeft, operation: Operation, members: u8, next: u8, sectors: &[u8; 4]) -> bool
    ensures { IsTrue result ↔ (Rest operation members (take (posts_count members next) sectors.now) next ≡ left_of left) }
{
    match left {
        LunLeft::Idle => false,
        LunLeft::Rest {
            operation: of,
            members: size,
            next: phase,
            sectors: others,
        } => {
            operation == of
                && members == size
                && next == phase
                && are_same_sectors(sectors, &others, posts_count(members, next))
        }
    }
}

// How many posts are left.
fn posts_count(members: u8, next: u8) -> usize
    ensures { result ≡ posts_count members next }
{
    members.saturating_sub(next.saturating_sub(members)) as usize
}

// Whether the first numbers of sectors are the same.
fn are_same_sectors(sectors: &[u8; 4], others: &[u8; 4], count: usize) -> bool
    ensures { IsTrue result ↔ (take count sectors.now ≡ take count others.now) }
{
    for i in 0..count.min(4) {
        if sectors[i] != others[i] {
            return false;
        }
    }
    true
}

// Whether the same is left, LUN by LUN.
fn are_alike(lefts: &[LunLeft], others: &[LunLeft]) -> bool
    ensures { IsTrue result ↔ (map left_of lefts.now ≡ map left_of others.now) }
{
    if lefts.len() != others.len() {
        return false;
    }
    for i in 0..lefts.len() {
        if !is_same(lefts[i], others[i]) {
            return false;
        }
    }
    true
}

// Whether this is what is left of what each LUN of a problem does.
fn are_left(problem: &Problem, luns: &[LunLeft]) -> bool
    ensures { IsTrue result ↔ (map left_of luns.now ≡ map left_on problem.now.problem.luns) }
{
    let mut own = ArrayVec::new();
    list_left(problem, &mut own);
    are_alike(luns, own.as_slice())
}

impl Known {
    /// A node of the problem, with these times.
    pub fn of(problem: &Problem, times: [u64; 8]) -> Known
        ensures describes { Describes problem.now.all result problem.now.problem }
        ensures times { result.times ≡ times }
    {
        let mut luns = ArrayVec::new();
        list_left(problem, &mut luns);
        let waiting = *problem.waiting();
        Known {
            waiting,
            luns,
            times,
        }
    }

    /// Whether the same is left to a problem.
    pub fn describes(&self, problem: &Problem) -> bool
        requires { Pairs (λ a b. a.id < b.id) problem.now.all }
        ensures { IsTrue result ↔ Describes problem.now.all self.now problem.now.problem }
    {
        let count = problem.wants().len();
        are_same(&self.waiting, problem.waiting(), count) && are_left(problem, self.luns.as_slice())
    }

    /// Whether a problem goes on no sooner.
    pub fn is_met(&self, problem: &Problem) -> bool
        ensures { IsTrue result ↔ Meets problem.now.problem (times_of self.now) }
    {
        problem.in_limits();
        let count = problem.lun_count();
        for lun in 0..count {
            if self.times[lun] > problem.may_go(lun as u8) && has_left(problem, lun as u8) {
                return false;
            }
        }
        true
    }
}
