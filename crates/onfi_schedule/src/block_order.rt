//! The order of requests on one block.

ghost use Rattle.std.specs.Prelude.{◌≡◌, ◌↔◌, IsNone, IfSome};
ghost use Rattle.std.specs.List.{AllByRecursion as Each};
ghost use Rattle.onfi_request.specs.declared.want.Want.{Want as WantValue};
ghost use Rattle.onfi_group.specs.Words.{Has, Pairs};
ghost use Rattle.onfi_problem.specs.Problem.{Problem};
ghost use Rattle.onfi_schedule.specs.Schedule.{Placed as PlacedGroup, Schedule, Before, group_phases};
ghost use Rattle.onfi_schedule.specs.Conditions.{EndsBefore, HoldersEnd, InBlockOrder};
ghost use Rattle.onfi_schedule.specs.Breaks.{condition_of, keeps_block_order};
ghost use Rattle.onfi_schedule.specs.Tells.{Tells, ArePair, Outlasts};

use crate::breach::Breach;
use crate::placed::Placed;
use crate::shape::holds;
use crate::slots::latest;
use crate::turns::{are_before, first_slot, slots_of};
use onfi_request::Want;
use onfi_timing::Timing;

// The end of the one group and the start of the other one, in ns, where the one hasn't ended then.
fn end_and_start(timing: &Timing, group: &Placed, other: &Placed) -> Option<(u64, u64)>
    ensures none { IsNone result ↔ Before (group_phases timing.now group.now) (group_phases timing.now other.now) }
    ensures told { IfSome result (λ t. Outlasts timing.now t.0 t.1 group.now other.now) }
{
    let earlier = slots_of(timing, group);
    let later = slots_of(timing, other);
    if are_before(earlier.as_slice(), later.as_slice()) {
        return None;
    }
    let start = first_slot(later.as_slice()).phase.start;
    Some((latest(0, earlier.as_slice()), start))
}

fn group_not_before(
    timing: &Timing,
    group: &Placed,
    want: &Want,
    groups: &[Placed],
) -> Option<(u64, u64)>
    ensures none { IsNone result ↔ EndsBefore timing.now group.now want.now groups.now }
    ensures told { IfSome result (λ t. (h : PlacedGroup) × Has groups.now h × Has h.members want.now × Outlasts timing.now t.0 t.1 group.now h) }
{
    for other in groups {
        if holds(other.members().members(), want) {
            let times = end_and_start(timing, group, other);
            if times.is_some() {
                return times;
            }
        }
    }
    None
}

fn holder_not_before(
    timing: &Timing,
    groups: &[Placed],
    first: &Want,
    second: &Want,
) -> Option<(u64, u64)>
    ensures none { IsNone result ↔ HoldersEnd timing.now groups.now first.now second.now groups.now }
    ensures told { IfSome result (λ t. (g h : PlacedGroup) × Has groups.now g × Has groups.now h × Has g.members first.now × Has h.members second.now × Outlasts timing.now t.0 t.1 g h) }
{
    for group in groups {
        if holds(group.members().members(), first) {
            let times = group_not_before(timing, group, second, groups);
            if times.is_some() {
                return times;
            }
        }
    }
    None
}

fn out_of_order(timing: &Timing, groups: &[Placed], first: &Want, second: &Want) -> Option<Breach>
    ensures none { IsNone result ↔ InBlockOrder timing.now groups.now first.now second.now }
    ensures about { IfSome result (λ b. condition_of b ≡ keeps_block_order) }
    ensures told { (p : Problem) (s : Schedule) → p.timing ≡ timing.now → s.groups ≡ groups.now → ArePair p.wants first.now second.now → IfSome result (Tells p s) }
{
    if first.lun != second.lun || first.block != second.block {
        return None;
    }
    match holder_not_before(timing, groups, first, second) {
        Some((end, start)) => Some(Breach::BlockOrder {
            earlier: first.id,
            later: second.id,
            start,
            end,
        }),
        None => None,
    }
}

fn out_of_order_among(
    timing: &Timing,
    groups: &[Placed],
    want: &Want,
    later: &[Want],
) -> Option<Breach>
    ensures none { IsNone result ↔ Each (InBlockOrder timing.now groups.now want.now) later.now }
    ensures about { IfSome result (λ b. condition_of b ≡ keeps_block_order) }
    ensures told { (p : Problem) (s : Schedule) → p.timing ≡ timing.now → s.groups ≡ groups.now → ((w : WantValue) → Has later.now w → ArePair p.wants want.now w) → IfSome result (Tells p s) }
{
    for other in later {
        let breach = out_of_order(timing, groups, want, other);
        if breach.is_some() {
            return breach;
        }
    }
    None
}

/// Two requests on one block in the wrong order.
pub(crate) fn wrong_order(timing: &Timing, groups: &[Placed], wants: &[Want]) -> Option<Breach>
    ensures none { IsNone result ↔ Pairs (InBlockOrder timing.now groups.now) wants.now }
    ensures about { IfSome result (λ b. condition_of b ≡ keeps_block_order) }
    ensures told { (p : Problem) (s : Schedule) → p.timing ≡ timing.now → s.groups ≡ groups.now → p.wants ≡ wants.now → IfSome result (Tells p s) }
{
    for (at, want) in wants.iter().enumerate() {
        let breach = out_of_order_among(timing, groups, want, &wants[at + 1..]);
        if breach.is_some() {
            return breach;
        }
    }
    None
}
