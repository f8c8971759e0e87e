ghost use Rattle.std.specs.Prelude.{◌≡◌};

use crate::starts::Starts;
use onfi_group::Group;
use onfi_request::Want;
use std::alloc::Global;
use std::default::MadeWith;
use std::marker::Model;

/// A group with the starts of its phases.
#[derive(Drop)]
pub struct Placed {
    members: Group,
    starts: Starts,
}

impl Model for Placed {
    ghost use Rattle.onfi_schedule.specs.Schedule.{Placed as PlacedGroup};

    ghost Value = { PlacedGroup };

    ghost view = { λ p. record { members = p.members; starts = p.starts } };
}

impl Placed {
    /// A group with these starts.
    pub fn new(members: Group, starts: Starts) -> Placed
        ensures members { result.members ≡ members }
        ensures starts { result.starts ≡ starts }
    {
        Placed { members, starts }
    }

    /// The same group with the same starts once more.
    pub fn copy(&self) -> Placed
        ensures { result ≡ self.now }
    {
        Placed {
            members: self.members.copy(),
            starts: self.starts.copy(),
        }
    }

    /// The group.
    pub fn members(&self) -> &Group
        ensures { result.now ≡ self.now.members }
    {
        &self.members
    }

    /// The starts of its phases, commands first.
    pub fn starts(&self) -> &Starts
        ensures { result.now ≡ self.now.starts }
    {
        &self.starts
    }
}

/// What stands in a place of a schedule that no group has.
impl MadeWith<Global> for Placed {
    fn made_with(alloc: Global) -> Placed {
        Placed {
            members: Group::of(alloc, &[Want::default()]),
            starts: Starts::new(),
        }
    }
}
