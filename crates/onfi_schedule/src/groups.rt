//! Groups by the rules.

ghost use Rattle.std.specs.Prelude.{◌≡◌, ℕ, ◌<◌, ◌≤◌, ◌↔◌, IsNone, IfSome, Some, List, length, slice_get};
ghost use Rattle.std.specs.List.{AllByRecursion as Each};
ghost use Rattle.onfi_request.specs.declared.want.Want.{Want as WantValue};
ghost use Rattle.onfi_group.specs.Words.{Has, Pairs};
ghost use Rattle.onfi_group.specs.Group.{IsGroup};
ghost use Rattle.onfi_group.specs.Joining.{GoesWith};
ghost use Rattle.onfi_problem.specs.Problem.{Problem};
ghost use Rattle.onfi_schedule.specs.Schedule.{Schedule};
ghost use Rattle.onfi_schedule.specs.Tells.{Tells, Differs};
ghost use Rattle.onfi_schedule.specs.Breaks.{condition_of, is_a_group};

use crate::breach::{Breach, Difference};
use crate::placed::Placed;
use onfi_group::{Rules, is_group};
use onfi_request::Want;
use onfi_timing::Operation;

// What members share, and these two don't.
fn difference(rules: &Rules, first: &Want, member: &Want) -> Option<Difference>
    ensures none { IsNone result → GoesWith rules.now first.now member.now }
    ensures told { IfSome result (λ d. Differs rules.now d first.now member.now) }
{
    let operation = first.kind.operation();
    if member.kind.operation() != operation {
        Some(Difference::Kind)
    } else if member.lun != first.lun {
        Some(Difference::Lun)
    } else if operation != Operation::Erase && member.page != first.page {
        Some(Difference::Page)
    } else if rules.strict && member.block >> rules.plane_bits != first.block >> rules.plane_bits {
        Some(Difference::Block)
    } else {
        None
    }
}

// The first member that differs from the first one in what members share.
fn find_differing(rules: &Rules, members: &[Want]) -> Option<Breach>
    ensures about { IfSome result (λ b. condition_of b ≡ is_a_group) }
    ensures none { IsNone result → (first : WantValue) → slice_get members.now 0 ≡ Some first → Each (GoesWith rules.now first) members.now }
    ensures told { (p : Problem) (s : Schedule) (starts : List ℕ) → p.rules ≡ rules.now → Has s.groups (record { members = members.now; starts = starts }) → IfSome result (Tells p s) }
{
    let first = members.first()?;
    for member in members {
        if let Some(difference) = difference(rules, first, member) {
            return Some(Breach::MixedGroup {
                first: first.id,
                request: member.id,
                difference,
            });
        }
    }
    None
}

// The first member whose plane isn't above that of the one before it.
fn plane_order(members: &[Want]) -> Option<Breach>
    ensures about { IfSome result (λ b. condition_of b ≡ is_a_group) }
    ensures none { IsNone result → Pairs (λ a b. a.plane < b.plane) members.now }
    ensures told { (p : Problem) (s : Schedule) (starts : List ℕ) → Has s.groups (record { members = members.now; starts = starts }) → IfSome result (Tells p s) }
{
    for at in 1..members.len() {
        if members[at].plane <= members[at - 1].plane {
            return Some(Breach::PlaneOrder {
                before: members[at - 1].id,
                request: members[at].id,
            });
        }
    }
    None
}

// What is wrong with members that are no group: where they are of one kind and page and their planes rise, the device
// runs no such requests on several planes.
fn fault_of(rules: &Rules, members: &[Want]) -> Breach
    requires some { 1 ≤ length members.now }
    ensures about { condition_of result ≡ is_a_group }
    ensures told { (p : Problem) (s : Schedule) (starts : List ℕ) → p.rules ≡ rules.now → Has s.groups (record { members = members.now; starts = starts }) → length members.now ≤ 4 → (IsGroup rules.now members.now → ⊥) → Tells p s result }
{
    if let Some(breach) = find_differing(rules, members) {
        return breach;
    }
    if let Some(breach) = plane_order(members) {
        return breach;
    }
    Breach::SinglePlane {
        first: members[0].id,
        request: members[members.len() - 1].id,
    }
}

fn group_fault(rules: &Rules, group: &Placed) -> Option<Breach>
    ensures none { IsNone result ↔ IsGroup rules.now group.now.members }
    ensures about { IfSome result (λ b. condition_of b ≡ is_a_group) }
    ensures told { (p : Problem) (s : Schedule) → p.rules ≡ rules.now → Has s.groups group.now → IfSome result (Tells p s) }
{
    let members = group.members().members();
    if is_group(rules, members) {
        None
    } else {
        Some(fault_of(rules, members))
    }
}

/// Requests that the rules don't let run as one operation.
pub(crate) fn no_group(rules: &Rules, groups: &[Placed]) -> Option<Breach>
    ensures none { IsNone result ↔ Each (λ g. IsGroup rules.now g.members) groups.now }
    ensures about { IfSome result (λ b. condition_of b ≡ is_a_group) }
    ensures told { (p : Problem) (s : Schedule) → p.rules ≡ rules.now → s.groups ≡ groups.now → IfSome result (Tells p s) }
{
    for group in groups {
        let breach = group_fault(rules, group);
        if breach.is_some() {
            return breach;
        }
    }
    None
}
