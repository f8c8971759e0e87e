ghost use Rattle.std.specs.Prelude.{◌≡◌, ◌<◌, ◌≤◌, length, List, IsTrue, ◌↔◌};
ghost use Rattle.std.specs.List.{insert};
ghost use Rattle.onfi_group.specs.Group.{IsGroup, group_operation, kind_of, lun_of, is_member};
ghost use Rattle.onfi_group.specs.Joining.{joined};

use crate::members::is_group;
use crate::rules::Rules;
use onfi_request::Want;
use onfi_timing::{Kind, Operation};
use smallvec::SmallVec;
use std::alloc::Global;
use std::marker::Model;

/// One to four wants, kept inline, that are to run as one multi-plane operation.
#[derive(Drop)]
pub struct Group {
    members: SmallVec<Want, 4>,
}

impl Model for Group {
    ghost use Rattle.std.specs.Prelude.{List, ◌≤◌, length};
    ghost use Rattle.onfi_request.specs.declared.want.Want.{Want};

    ghost Value = { List Want };

    ghost view = { λ g. g.members.items };

    ghost invariant = { λ g. (1 ≤ length g.members.items) × (length g.members.items ≤ 4) };
}

impl Group {
    /// A group of these wants; up to four stand inline, so this takes no memory.
    pub fn of(alloc: Global, members: &[Want]) -> Group
        requires some { 1 ≤ length members.now }
        requires few { length members.now ≤ 4 }
        ensures { result ≡ members.now }
    {
        Group {
            members: SmallVec::from_slice(alloc, members).unwrap(),
        }
    }

    /// The same group once more; this takes no memory.
    pub fn copy(&self) -> Group
        ensures { result ≡ self.now }
    {
        let alloc = *self.members.allocator();
        Group {
            members: SmallVec::from_slice(alloc, self.members()).unwrap(),
        }
    }

    /// How many wants it has, 1 to 4.
    pub fn len(&self) -> usize
        ensures value { result ≡ length self.now }
        ensures some { 1 ≤ result }
        ensures few { result ≤ 4 }
    {
        self.members.len()
    }

    /// Its wants, in the order in which they were given: planes rising in every group that [`Group::is_group`] takes.
    pub fn members(&self) -> &[Want]
        ensures value { result.now ≡ self.now }
        ensures some { 1 ≤ length self.now }
        ensures few { length self.now ≤ 4 }
    {
        self.members.as_slice()
    }

    /// The kind of its first want.
    pub fn kind(&self) -> Kind
        ensures { result ≡ kind_of self.now }
    {
        self.members()[0].kind
    }

    /// What its wants have the LUN do, as the first says.
    pub fn operation(&self) -> Operation
        ensures { result ≡ group_operation self.now }
    {
        self.kind().operation()
    }

    /// The LUN of its first want.
    pub fn lun(&self) -> u8
        ensures { result ≡ lun_of self.now }
    {
        self.members()[0].lun
    }

    /// Whether a want of that number is a member.
    pub fn has(&self, want: &Want) -> bool
        ensures { result ≡ is_member self.now want.now }
    {
        self.members().iter().any(|m| m.id == want.id)
    }

    /// Whether the rules allow it, as [`is_group`] says of wants.
    pub fn is_group(&self, rules: &Rules) -> bool
        ensures { IsTrue result ↔ IsGroup rules.now self.now }
    {
        is_group(rules, self.members())
    }

    // Its wants and this one, at its plane, whether that is a group or not.
    pub(crate) fn with_want(&self, want: &Want) -> Group
        requires { length self.now < 4 }
        ensures { result ≡ joined want.now self.now }
    {
        let at = place_for(want, self.members());
        let alloc = *self.members.allocator();
        let mut members = SmallVec::from_slice(alloc, self.members()).unwrap();
        members.insert(at, *want).unwrap();
        Group { members }
    }
}

// The place for the want among the members: before the first one whose plane isn't below its own.
fn place_for(want: &Want, members: &[Want]) -> usize
    ensures within { result ≤ length members.now }
    ensures place { insert members.now result want.now ≡ joined want.now members.now }
{
    for (at, member) in members.iter().enumerate() {
        if want.plane <= member.plane {
            return at;
        }
    }
    members.len()
}
