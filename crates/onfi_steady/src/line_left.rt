//! What waits on once a group began.
ghost use Rattle.std.specs.Prelude.{◌≡◌, ◌+◌, ◌<◌, ◌≤◌, [], length};
ghost use Rattle.onfi_steady.specs.Slots as spec;

use crate::begin::Begin;
use crate::slot::Slot;
use arrayvec::ArrayVec;

/// Puts those that wait on, once the group began on the LUN, in their order into the empty list.
pub fn list_left(left: &mut ArrayVec<Slot, 64>, lun: u8, begin: &Begin, slots: &[Slot])
    requires none { left.old.items ≡ [] }
    requires few { length slots.now ≤ 64 }
    ensures { left.new.items ≡ spec.left_of lun begin.now slots.now }
{
    for slot in slots {
        put_left(left, lun, begin, slot);
    }
}

/// Puts those that have another number, in their order, into the empty list.
pub fn list_others(others: &mut ArrayVec<Slot, 64>, id: u64, slots: &[Slot])
    requires none { others.old.items ≡ [] }
    requires few { length slots.now ≤ 64 }
    ensures { others.new.items ≡ spec.others_of id slots.now }
{
    for slot in slots {
        put_other(others, id, slot);
    }
}

// Appends one to the others, where it has another number.
fn put_other(others: &mut ArrayVec<Slot, 64>, id: u64, slot: &Slot)
    requires { length others.old.items < 64 }
    ensures items { others.new.items ≡ spec.others_with id others.old.items slot.now }
    ensures few { length others.new.items ≤ length others.old.items + 1 }
{
    if slot.id != id {
        others.push(*slot);
    }
}

// Appends one to the others, where it waits on.
fn put_left(left: &mut ArrayVec<Slot, 64>, lun: u8, begin: &Begin, slot: &Slot)
    requires { length left.old.items < 64 }
    ensures items { left.new.items ≡ spec.left_with lun begin.now left.old.items slot.now }
    ensures few { length left.new.items ≤ length left.old.items + 1 }
{
    if !begins_with(lun, begin.members(), slot) {
        left.push(Slot {
            passed: count_passed(lun, begin.last, slot),
            ..*slot
        });
    }
}

// Whether it is a member of the group that begins on the LUN.
fn begins_with(lun: u8, members: &[Slot], slot: &Slot) -> bool
    ensures { result ≡ spec.begins_with lun members.now slot.now }
{
    slot.lun == lun && has_number(members, slot.id)
}

/// Whether one of them has that number.
pub fn has_number(members: &[Slot], id: u64) -> bool
    ensures { result ≡ spec.has_number members.now id }
{
    members.iter().any(|m| m.id == id)
}

// How often it was passed over then: once more where it is of the LUN and a member is later.
fn count_passed(lun: u8, last: u64, slot: &Slot) -> u16
    ensures { result ≡ spec.passed_of lun last slot.now }
{
    if slot.lun == lun && slot.id < last {
        return slot.passed.saturating_add(1);
    }
    slot.passed
}
