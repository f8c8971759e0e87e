//! What is left to a LUN, in numbers.

ghost use Rattle.std.specs.Prelude.{◌≡◌, ◌-◌, ◌≤◌, ◌<◌, ◌++◌, true, false, [], length, replicate, slice_get, Some};
ghost use Rattle.std.specs.Option.{option_map};
ghost use Rattle.onfi_problem.specs.Position.{state_of, waiting_of};
ghost use Rattle.onfi_bound.specs.Bounds.{on_lun};
ghost use Rattle.onfi_demand.specs.Left.{left_on, has_left, sectors_left};
ghost use Rattle.onfi_demand.specs.Remaining.{posts_count};
ghost use Rattle.onfi_demand.specs.Work.{left_of, IsWork, IsShape, IsPadded};
ghost use Rattle.onfi_problem.specs.Problem.{Problem as AnyProblem};
ghost use Rattle.std.specs.Prelude.{ℕ};

use arrayvec::ArrayVec;
use onfi_group::Group;
use onfi_problem::{Lun, Problem};
use onfi_request::Want;
use onfi_timing::Operation;

/// What is left of what a LUN does.
#[derive(Clone, Copy, Debug, Default, PartialEq, Eq)]
pub enum LunLeft {
    #[default]
    Idle,
    /// A group of `members` members of an operation, of which phase `next` comes next, and how many sectors the posts put out
    /// that are left; 0 after those, and where a post is no read of some sectors.
    Rest {
        operation: Operation,
        members: u8,
        next: u8,
        sectors: [u8; 4],
    },
}

/// What is left to a LUN, and from when on it may go on, in ns.
#[derive(Drop)]
pub struct LunWork {
    pub go: u64,
    pub left: LunLeft,
    /// The wants that wait for it.
    pub wants: ArrayVec<Want, 8>,
}

impl LunWork {
    /// What is left to a LUN of a problem.
    pub fn of(problem: &Problem, lun: u8) -> LunWork
        requires { lun < length problem.now.problem.luns }
        ensures { IsWork problem.now.problem lun result }
    {
        let go = problem.may_go(lun);
        let left = left_on(problem, lun);
        let mut wants = ArrayVec::new();
        list_wants(problem.wants(), problem.waiting(), lun, &mut wants);
        LunWork { go, left, wants }
    }

    /// Whether a group runs on the LUN or a want waits for it.
    pub fn is_some(&self) -> bool
        ensures { (p : AnyProblem) (lun : ℕ) → IsWork p lun self.now → result ≡ has_left p lun }
    {
        match self.left {
            LunLeft::Rest { .. } => true,
            LunLeft::Idle => !self.wants.is_empty(),
        }
    }
}

/// What is left of what a LUN of a problem does.
pub fn left_on(problem: &Problem, lun: u8) -> LunLeft
    requires { lun < length problem.now.problem.luns }
    ensures left { option_map left_on (slice_get problem.now.problem.luns lun) ≡ Some (left_of result) }
    ensures shape { IsShape result }
{
    problem.in_limits();
    left_of(problem.groups(), problem.luns()[lun as usize])
}

/// What is left of what a LUN does.
fn left_of(groups: &[Group], lun: Lun) -> LunLeft
    requires place { 1 ≤ lun.next → lun.place < length groups.now }
    ensures left { left_of result ≡ left_on (state_of groups.now lun) }
    ensures padded { IsPadded result }
{
    if lun.next == 0 {
        return LunLeft::Idle;
    }
    let group = &groups[lun.place as usize];
    LunLeft::Rest {
        operation: group.operation(),
        members: group.len() as u8,
        next: lun.next,
        sectors: sectors_left(group.members(), lun.next),
    }
}

// How many sectors the members put out whose posts are left, where phase `next` comes next; zeros after them.
fn sectors_left(members: &[Want], next: u8) -> [u8; 4]
    requires { length members.now ≤ 4 }
    ensures left { result ≡ sectors_left members.now next ++ replicate (4 - posts_count (length members.now) next) 0 }
    ensures long { length result ≡ 4 }
{
    let mut sectors = [0; 4];
    let over = (next as usize).saturating_sub(members.len());
    for at in over..members.len() {
        sectors[at - over] = members[at].kind.sectors();
    }
    sectors
}

/// Whether a group runs on a LUN or a want waits for it.
pub fn has_left(problem: &Problem, lun: u8) -> bool
    requires { lun < length problem.now.problem.luns }
    ensures { result ≡ has_left problem.now.problem lun }
{
    problem.in_limits();
    let state = problem.luns()[lun as usize];
    state.next != 0 || has_want(problem.wants(), problem.waiting(), lun)
}

/// Whether a marked want is of a LUN.
fn has_want(all: &[Want], marks: &[bool; 8], lun: u8) -> bool
    requires { length all.now ≤ 8 }
    ensures none { result ≡ false → on_lun lun (waiting_of marks.now all.now) ≡ [] }
    ensures some { result ≡ true → 1 ≤ length (on_lun lun (waiting_of marks.now all.now)) }
{
    for (i, want) in all.iter().enumerate() {
        if marks[i] && lun == want.lun {
            return true;
        }
    }
    false
}

/// Lists the marked wants of a LUN.
fn list_wants(all: &[Want], marks: &[bool; 8], lun: u8, wants: &mut ArrayVec<Want, 8>)
    requires empty { wants.old.items ≡ [] }
    requires few { length all.now ≤ 8 }
    ensures { wants.new.items ≡ on_lun lun (waiting_of marks.now all.now) }
{
    for (i, want) in all.iter().enumerate() {
        if marks[i] && want.lun == lun {
            wants.push(*want);
        }
    }
}
