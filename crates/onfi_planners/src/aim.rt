//! What a walk is after.

ghost use Rattle.std.specs.Prelude.{◌≡◌, ◌≤◌, IfOk, length};

use crate::cost::weight_of;
use crate::weights::Weights;
use onfi_group::Group;
use onfi_problem::Problem;
use onfi_request::Want;
use onfi_timing::Timing;
use std::alloc::{AllocError, Global};

/// How long a command of a group takes, in ns, the weights of its members, and which wants they are.
#[derive(Clone, Copy)]
struct Members {
    command: u64,
    weights: [u16; 4],
    wants: [bool; 8],
}

/// The weights of all requests, by when a run has to end, in ns, and how long phases take.
#[derive(Drop)]
pub struct Aim {
    /// For each group, by its place among those of the problem.
    groups: Vec<Members>,
    /// For each want, by its place among all.
    pub wants: [u16; 8],
    pub latest: u64,
    pub timing: Timing,
}

impl Aim {
    /// What a walk from a problem is after.
    ///
    /// # Errors
    /// Only where memory was refused.
    pub fn new(
        alloc: Global,
        problem: &Problem,
        weights: &Weights,
        latest: u64,
    ) -> Result<Aim, AllocError>
        ensures wants { IfOk result (λ aim. aim.wants ≡ weights.now.wants) }
        ensures latest { IfOk result (λ aim. aim.latest ≡ latest) }
    {
        let mut groups = members_of_groups(alloc, problem, &weights.wants)?;
        for (lun, state) in problem.luns().iter().enumerate() {
            if state.next > 0
                && let Some(own) = groups.get_mut(state.place as usize)
            {
                own.weights = weights.running[lun];
            }
        }
        let wants = weights.wants;
        Ok(Aim {
            groups,
            wants,
            latest,
            timing: *problem.timing(),
        })
    }

    /// The weight of a member of the group at a place.
    pub fn weight(&self, place: u8, member: usize) -> u16 {
        match self.groups.get(place as usize) {
            Some(own) => own.weights.get(member).copied().unwrap_or(0),
            None => 0,
        }
    }

    /// How long a command of the group at a place takes, in ns.
    pub fn command(&self, place: u8) -> u64 {
        match self.groups.get(place as usize) {
            Some(own) => own.command,
            None => 0,
        }
    }

    /// The least weight of `members` members of the group at a place, from one on; the greatest number where there is none.
    pub fn least(&self, place: u8, first: u8, members: u8) -> u16 {
        let mut least = u16::MAX;
        for member in first..first.saturating_add(members) {
            least = least.min(self.weight(place, member as usize));
        }
        least
    }

    /// Which wants are the members of the group at a place.
    pub fn wants_of(&self, place: u8) -> [bool; 8] {
        match self.groups.get(place as usize) {
            Some(own) => own.wants,
            None => [false; 8],
        }
    }
}

// For each group of the problem its members, by the wants that they are.
fn members_of_groups(
    alloc: Global,
    problem: &Problem,
    weights: &[u16; 8],
) -> Result<Vec<Members>, AllocError> {
    let mut groups = Vec::with_capacity(alloc, problem.groups().len())?;
    let (wants, timing) = (problem.wants(), problem.timing());
    for group in problem.groups() {
        groups.push(Members {
            command: timing.spans(group.kind()).cmd,
            weights: weights_of_members(wants, weights, group),
            wants: wants_of_group(wants, group),
        })?;
    }
    Ok(groups)
}

fn wants_of_group(wants: &[Want], group: &Group) -> [bool; 8]
    requires { length wants.now ≤ 8 }
{
    let mut own = [false; 8];
    for (at, want) in wants.iter().enumerate() {
        own[at] = group.has(want);
    }
    own
}

fn weights_of_members(wants: &[Want], weights: &[u16; 8], group: &Group) -> [u16; 4]
    requires { length wants.now ≤ 8 }
{
    let mut own = [0; 4];
    for (at, member) in group.members().iter().enumerate() {
        own[at] = weight_of(wants, weights, member.id);
    }
    own
}
