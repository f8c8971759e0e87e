ghost use Rattle.std.specs.Prelude.{◌≡◌, ◌≢◌, ℕ, ◌<◌, Some, MatchOption};
ghost use Rattle.slab.specs.Slab.{get};
ghost use Rattle.onfi_core.specs.View.{HasSlot};
ghost use Rattle.onfi_core.specs.Unanswered.{IsNearest, nearer};
ghost use Rattle.onfi_core.specs.declared.slot.Slot.{Slot as ASlot};

use crate::slot::Slot;
use onfi_request::Item;
use slab::Slab;

/// The key of a slot with that place.
pub fn find(slots: &Slab<Slot>, place: u64) -> Option<usize>
    ensures { MatchOption result
        ((key : ℕ) (slot : ASlot) → key < slots.now.capacity → get slots.now key ≡ Some slot → slot.place ≢ place)
        (λ key. (slot : ASlot) × (get slots.now key ≡ Some slot) × (slot.place ≡ place)) }
{
    for key in 0..slots.capacity() {
        if let Some(slot) = slots.get(key) {
            if slot.place == place {
                return Some(key);
            }
        }
    }
    None
}

/// The item of a slot with that place.
pub fn item_of(slots: &Slab<Slot>, place: u64) -> &Item
    requires { HasSlot slots.now place }
    ensures { (key : ℕ) × (slot : ASlot) × (get slots.now key ≡ Some slot) × (slot.place ≡ place) × (result.now ≡ slot.item) }
{
    &slot_of(slots, place).item
}

/// The slot with that place.
pub fn slot_of(slots: &Slab<Slot>, place: u64) -> &Slot
    requires { HasSlot slots.now place }
    ensures { (key : ℕ) × (get slots.now key ≡ Some result.now) × (result.now.place ≡ place) }
{
    let Some(key) = find(slots, place) else {
        unreachable!();
    };
    let Some(slot) = slots.get(key) else {
        unreachable!();
    };
    slot
}

/// The least place of a slot that isn't below this one.
pub fn next_place(slots: &Slab<Slot>, from: u64) -> Option<u64>
    ensures { IsNearest slots.now slots.now.capacity from result }
{
    let mut least = None;
    for key in 0..slots.capacity() {
        if let Some(slot) = slots.get(key) {
            least = choose_nearer(least, from, slot.place);
        }
    }
    least
}

// Of one place so far and another, the lesser that isn't below the first.
fn choose_nearer(least: Option<u64>, from: u64, place: u64) -> Option<u64>
    ensures { result ≡ nearer least from place }
{
    if place < from {
        return least;
    }
    match least {
        Some(least) => Some(least.min(place)),
        None => Some(place),
    }
}
