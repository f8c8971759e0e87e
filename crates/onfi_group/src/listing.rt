ghost use Rattle.std.specs.Prelude.{◌≡◌, ◌<◌, ◌≤◌, length, IfOk, IfSome, IfNone, OnOk, vec_len};
ghost use Rattle.std.specs.List.{AllByRecursion as Each, list_any};
ghost use Rattle.onfi_group.specs.Words.{Pairs};
ghost use Rattle.onfi_group.specs.Group.{IsGroup, on_block};
ghost use Rattle.onfi_group.specs.Joining.{joined, HasGrown};
ghost use Rattle.onfi_group.specs.Listing.{AreCandidates, AreStartable, MasksRise};

use crate::group::Group;
use crate::rules::Rules;
use onfi_request::Want;
use std::alloc::{AllocError, Global};

/// Each group of the LUN whose members are each the first of the wants on their block, once, in rising bit mask of the
/// members' places among the wants. It asks for at most eight wants on planes 0 to 3, and gives at most 80 groups.
///
/// # Errors
/// Only where memory was refused.
pub fn startable(
    alloc: Global,
    wants: &[Want],
    lun: u8,
    rules: &Rules,
) -> Result<Vec<Group>, AllocError>
    requires few { length wants.now ≤ 8 }
    requires planes { Each (λ w. w.plane ≤ 3) wants.now }
    ensures startable { IfOk result (λ groups. AreStartable rules.now wants.now lun groups.items) }
    ensures few { IfOk result (λ groups. vec_len groups ≤ 80) }

    // Where ids rise, they give the same order.
    ensures by_ids { Pairs (λ a b. a.id < b.id) wants.now →
        IfOk result (λ groups. MasksRise wants.now groups.items) }
{
    let mut groups = Vec::new(alloc);
    for (at, want) in wants.iter().enumerate() {
        if want.lun == lun && !has_block(&wants[..at], want) {
            grow(alloc, &mut groups, want, rules)?;
        }
    }
    Ok(groups)
}

/// Each group of the LUN with all members among the wants, whatever else is to be done first on their blocks, once, in
/// rising bit mask of the members' places among the wants. It asks for at most eight wants on planes 0 to 3 with rising
/// ids, and gives at most 80 groups.
///
/// # Errors
/// Only where memory was refused.
pub fn candidates(
    alloc: Global,
    wants: &[Want],
    lun: u8,
    rules: &Rules,
) -> Result<Vec<Group>, AllocError>
    requires few { length wants.now ≤ 8 }
    requires planes { Each (λ w. w.plane ≤ 3) wants.now }
    requires ids { Pairs (λ a b. a.id < b.id) wants.now }
    ensures candidates { IfOk result (λ groups. AreCandidates rules.now wants.now lun groups.items) }
    ensures few { IfOk result (λ groups. vec_len groups ≤ 80) }
{
    let mut groups = Vec::new(alloc);
    for want in wants {
        if want.lun == lun {
            grow(alloc, &mut groups, want, rules)?;
        }
    }
    Ok(groups)
}

// Whether one of them is on the want's block.
fn has_block(earlier: &[Want], want: &Want) -> bool
    ensures { result ≡ list_any (on_block want.now) earlier.now }
{
    earlier
        .iter()
        .any(|e| e.lun == want.lun && e.block == want.block)
}

// Appends to the groups the want alone, and what it makes with each of them.
fn grow(
    alloc: Global,
    groups: &mut Vec<Group>,
    want: &Want,
    rules: &Rules,
) -> Result<(), AllocError>
    ensures { OnOk result (HasGrown rules.now want.now groups.old.items groups.new.items) }
{
    let before = groups.len();
    groups.push(Group::of(alloc, &[*want]))?;
    for at in 0..before {
        if let Some(more) = join(&groups[at], want, rules) {
            groups.push(more)?;
        }
    }
    Ok(())
}

// The group and the want as one group, where they are one.
fn join(group: &Group, want: &Want, rules: &Rules) -> Option<Group>
    ensures value { IfSome result (λ more. (more ≡ joined want.now group.now) × IsGroup rules.now more) }
    ensures none { IfNone result (IsGroup rules.now (joined want.now group.now) → ⊥) }
{
    if group.len() == 4 {
        return None;
    }
    let more = group.with_want(want);
    if more.is_group(rules) {
        Some(more)
    } else {
        None
    }
}
