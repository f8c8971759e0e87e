//! Whether a group may start, without a table of groups.

ghost use Rattle.std.specs.Prelude.{◌≡◌, ◌↔◌, IsTrue};
ghost use Rattle.std.specs.List.{AllByRecursion as Each};
ghost use Rattle.onfi_group.specs.Group.{IsFirst, IsStartable};

use onfi_group::{Group, Rules};
use onfi_request::Want;

/// Whether the group is one by the rules each of whose members is the first on its block of the wants that wait.
pub fn is_startable(rules: &Rules, wants: &[Want], group: &Group) -> bool
    ensures { IsTrue result ↔ IsStartable rules.now wants.now group.now }
{
    if !group.is_group(rules) {
        return false;
    }
    all_first(wants, group.members())
}

// Whether each of the members is the first want on its block.
fn all_first(wants: &[Want], members: &[Want]) -> bool
    ensures { IsTrue result ↔ Each (IsFirst wants.now) members.now }
{
    for member in members {
        if !is_first(wants, member) {
            return false;
        }
    }
    true
}

// Whether it is the first want on its block.
fn is_first(wants: &[Want], member: &Want) -> bool
    ensures { IsTrue result ↔ IsFirst wants.now member.now }
{
    for want in wants {
        if want.lun == member.lun && want.block == member.block {
            return want == member;
        }
    }
    false
}
