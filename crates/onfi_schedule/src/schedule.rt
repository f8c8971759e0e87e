ghost use Rattle.std.specs.Prelude.{◌≡◌, ◌<◌, ◌≤◌, [], length, remove, replicate, slice_set};

use crate::placed::Placed;
use crate::starts::Starts;
use arrayvec::ArrayVec;
use std::alloc::Global;
use std::marker::Model;

/// Starts for the phases of a problem: for each LUN those that are left of its running group, none where it is free,
/// and new groups in any order.
///
/// All of it stands inline, so a copy takes no memory: up to eight groups, and the starts of up to eight LUNs and of one
/// that isn't there, such as the text of a plan may give.
#[derive(Drop)]
pub struct Schedule {
    rest: ArrayVec<Starts, 9>,
    groups: ArrayVec<Placed, 8, Global>,
}

impl Model for Schedule {
    ghost use Rattle.std.specs.Prelude.{◌≤◌, length};
    ghost use Rattle.onfi_schedule.specs.Schedule.{Schedule as PhaseStarts};

    ghost Value = { PhaseStarts };

    ghost view = { λ s. record { rest = s.rest.items; groups = s.groups.items } };

    ghost invariant = { λ s. (length s.rest.items ≤ 9) × (length s.groups.items ≤ 8) };
}

impl Schedule {
    /// A schedule of these starts.
    pub fn new(rest: ArrayVec<Starts, 9>, groups: ArrayVec<Placed, 8, Global>) -> Schedule
        ensures rest { result.rest ≡ rest.items }
        ensures groups { result.groups ≡ groups.items }
    {
        Schedule { rest, groups }
    }

    /// The same schedule once more; this takes no memory.
    pub fn copy(&self) -> Schedule
        ensures { result ≡ self.now }
    {
        Schedule {
            rest: copy_rest(self.rest()),
            groups: self.copy_groups(),
        }
    }

    /// Its new groups once more; this takes no memory.
    pub fn copy_groups(&self) -> ArrayVec<Placed, 8, Global>
        ensures { result.items ≡ self.now.groups }
    {
        let mut copies = ArrayVec::new_in(*self.groups.allocator());
        for group in self.groups() {
            copies.push(group.copy());
        }
        copies
    }

    /// These starts are left of the LUN's running group, in place of those that were.
    pub fn set_rest(&mut self, lun: usize, starts: Starts)
        requires { lun < length self.old.rest }
        ensures { self.new ≡ record self.old { rest = slice_set self.old.rest lun starts } }
    {
        self.rest[lun] = starts;
    }

    /// The new group at that place is none of them any more; those after it keep their order.
    pub fn remove_group(&mut self, at: usize)
        requires { at < length self.old.groups }
        ensures { self.new ≡ record self.old { groups = remove self.old.groups at } }
    {
        self.groups.remove(at);
    }

    /// For each LUN the starts of the phases that are left of its running group.
    pub fn rest(&self) -> &[Starts]
        ensures value { result.now ≡ self.now.rest }
        ensures few { length self.now.rest ≤ 9 }
    {
        &self.rest
    }

    /// The new groups.
    pub fn groups(&self) -> &[Placed]
        ensures value { result.now ≡ self.now.groups }
        ensures few { length self.now.groups ≤ 8 }
    {
        &self.groups
    }
}

/// No start for each of that many LUNs.
pub fn no_starts(luns: usize) -> ArrayVec<Starts, 9>
    requires { luns ≤ 9 }
    ensures { result.items ≡ replicate luns [] }
{
    let mut rest = ArrayVec::new();
    for _ in 0..luns {
        rest.push(Starts::new());
    }
    rest
}

// The same starts of each LUN once more.
fn copy_rest(rest: &[Starts]) -> ArrayVec<Starts, 9>
    requires { length rest.now ≤ 9 }
    ensures { result.items ≡ rest.now }
{
    let mut copies = ArrayVec::new();
    for starts in rest {
        copies.push(starts.copy());
    }
    copies
}
