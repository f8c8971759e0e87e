ghost use Rattle.std.specs.Prelude.{◌≡◌, ◌<◌, ◌↔◌, IsTrue};
ghost use Rattle.std.specs.List.{AllByRecursion as Each};
ghost use Rattle.onfi_group.specs.Words.{Pairs};
ghost use Rattle.onfi_group.specs.Group.{IsGroup, may_group};
ghost use Rattle.onfi_group.specs.Joining.{GoesWith};

use crate::rules::Rules;
use onfi_request::Want;
use onfi_timing::Operation;

/// Whether these wants may run as one operation (ONFI 4.2, multi-plane operations): one to four of one operation and LUN,
/// planes rising, one page for reads and programs, several only where the rules allow it, and where the rules are
/// strict with one block number above the plane bits.
pub fn is_group(rules: &Rules, members: &[Want]) -> bool
    ensures { IsTrue result ↔ IsGroup rules.now members.now }
{
    if members.is_empty() || members.len() > 4 {
        return false;
    }
    let first = &members[0];
    if members.len() > 1 && !may_group(rules, first.kind.operation()) {
        return false;
    }
    all_go_with(rules, first, members) && planes_rise(members)
}

// Whether several wants of that operation may run as one.
fn may_group(rules: &Rules, operation: Operation) -> bool
    ensures { result ≡ may_group rules.now operation }
{
    match operation {
        Operation::Read => rules.read,
        Operation::Program | Operation::Erase => rules.write,
    }
}

// Whether each of them shares with the first one what members share.
fn all_go_with(rules: &Rules, first: &Want, members: &[Want]) -> bool
    ensures { IsTrue result ↔ Each (GoesWith rules.now first.now) members.now }
{
    for member in members {
        if !goes_with(rules, first, member) {
            return false;
        }
    }
    true
}

fn goes_with(rules: &Rules, first: &Want, member: &Want) -> bool
    ensures { IsTrue result ↔ GoesWith rules.now first.now member.now }
{
    let operation = first.kind.operation();
    member.kind.operation() == operation
        && member.lun == first.lun
        && (operation == Operation::Erase || member.page == first.page)
        && (!rules.strict || member.block >> rules.plane_bits == first.block >> rules.plane_bits)
}

fn planes_rise(members: &[Want]) -> bool
    ensures { IsTrue result ↔ Pairs (λ a b. a.plane < b.plane) members.now }
{
    for at in 1..members.len() {
        if members[at].plane <= members[at - 1].plane {
            return false;
        }
    }
    true
}
