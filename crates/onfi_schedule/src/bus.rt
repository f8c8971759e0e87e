//! When phases have the bus.

ghost use Rattle.std.specs.Prelude.{◌≡◌, ◌<◌, ◌≤◌, ◌↔◌, IsNone, IfSome, length};
ghost use Rattle.std.specs.List.{AllByRecursion as Each};
ghost use Rattle.onfi_group.specs.Words.{Has, Pairs};
ghost use Rattle.onfi_problem.specs.Problem.{Problem};
ghost use Rattle.onfi_schedule.specs.Schedule.{Schedule, Apart, end_of};
ghost use Rattle.onfi_schedule.specs.Breaks.{condition_of, bus_is_free, no_overlap};
ghost use Rattle.onfi_schedule.specs.Names.{named};
ghost use Rattle.onfi_schedule.specs.Tells.{Tells, AreTwo};
ghost use Rattle.onfi_schedule.specs.Slots.{phases_in, named_slot, named_in};

use crate::breach::Breach;
use crate::slot::Slot;

/// A phase that starts before the bus is free.
pub(crate) fn too_early(bus_free: u64, slots: &[Slot]) -> Option<Breach>
    ensures none { IsNone result ↔ Each (λ x. bus_free ≤ x.start) (phases_in slots.now) }
    ensures about { IfSome result (λ b. condition_of b ≡ bus_is_free) }
    ensures told { (p : Problem) (s : Schedule) → p.bus_free ≡ bus_free → named p s ≡ named_in slots.now → IfSome result (Tells p s) }
{
    for slot in slots {
        if slot.phase.start < bus_free {
            return Some(Breach::BusNotFree {
                phase: slot.name,
                start: slot.phase.start,
                bus_free,
            });
        }
    }
    None
}

// That the one starts while the other holds the bus.
fn within(slot: &Slot, holder: &Slot) -> Breach
    requires begun { holder.now.phase.start ≤ slot.now.phase.start }
    requires lasts { slot.now.phase.start < end_of holder.now.phase }
    ensures about { condition_of result ≡ no_overlap }
    ensures told { (p : Problem) (s : Schedule) → AreTwo (named p s) (named_slot slot.now) (named_slot holder.now) → Tells p s result }
{
    Breach::Overlap {
        phase: slot.name,
        start: slot.phase.start,
        holder: holder.name,
        from: holder.phase.start,
        to: holder.phase.start + holder.phase.length,
    }
}

// Of two phases that aren't apart, that the one starts while the other holds the bus.
fn report_overlap(one: &Slot, other: &Slot) -> Breach
    requires { Apart one.now.phase other.now.phase → ⊥ }
    ensures about { condition_of result ≡ no_overlap }
    ensures told { (p : Problem) (s : Schedule) → AreTwo (named p s) (named_slot one.now) (named_slot other.now) → Tells p s result }
{
    if one.phase.start < other.phase.start {
        within(other, one)
    } else {
        within(one, other)
    }
}

// The first of the others that the slot isn't apart from.
fn find_overlap(slot: &Slot, others: &[Slot]) -> Option<Slot>
    ensures none { IsNone result ↔ Each (Apart slot.now.phase) (phases_in others.now) }
    ensures meets { IfSome result (λ other. Apart slot.now.phase other.phase → ⊥) }
    ensures there { IfSome result (Has others.now) }
{
    for other in others {
        if !slot.phase.is_apart(&other.phase) {
            return Some(*other);
        }
    }
    None
}

/// A phase that starts while another one holds the bus.
pub(crate) fn overlap(slots: &[Slot]) -> Option<Breach>
    ensures none { IsNone result ↔ Pairs Apart (phases_in slots.now) }
    ensures about { IfSome result (λ b. condition_of b ≡ no_overlap) }
    ensures told { (p : Problem) (s : Schedule) → named p s ≡ named_in slots.now → IfSome result (Tells p s) }
{
    for (at, slot) in slots.iter().enumerate() {
        if let Some(other) = find_overlap(slot, &slots[at + 1..]) {
            return Some(report_overlap(slot, &other));
        }
    }
    None
}
