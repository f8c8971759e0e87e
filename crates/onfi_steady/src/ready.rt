//! The requests of a LUN that may begin.

ghost use Rattle.std.specs.Prelude.{◌≡◌, ◌+◌, ◌<◌, ◌≤◌, [], length};
ghost use Rattle.std.specs.List.{list_any};
ghost use Rattle.onfi_timing.specs.declared.kind.Kind.TheVariants.{Read};
ghost use Rattle.onfi_group.specs.Group.{on_block};
ghost use Rattle.onfi_steady.specs.Offer.{firsts, is_kind};
ghost use Rattle.onfi_steady.specs.Kept.{firsts_with};
ghost use Rattle.onfi_steady.specs.Slots.{waiters_in};

use crate::slot::Slot;
use crate::waiter::Waiter;
use arrayvec::ArrayVec;
use onfi_request::Want;
use onfi_timing::Kind;

/// Puts those of a LUN's requests that may begin, oldest first, into the empty list. Answers whether a read waits, be it ready
/// or not.
pub fn list_slots<const N: usize>(ready: &mut ArrayVec<Waiter, N>, waiting: &[Slot]) -> bool
    requires none { ready.old.items ≡ [] }
    requires few { length waiting.now ≤ N }
    ensures ready { ready.new.items ≡ firsts (waiters_in waiting.now) }
    ensures reads { result ≡ list_any (is_kind Read) (waiters_in waiting.now) }
{
    let mut reads = false;
    for slot in waiting {
        if put_first(ready, slot.waiter()) {
            reads = true;
        }
    }
    reads
}

// Appends one to the others, where none of them is on its block. Answers whether it is a read.
fn put_first<const N: usize>(ready: &mut ArrayVec<Waiter, N>, waiter: Waiter) -> bool
    requires { length ready.old.items < N }
    ensures items { ready.new.items ≡ firsts_with ready.old.items waiter }
    ensures few { length ready.new.items ≤ length ready.old.items + 1 }
    ensures read { result ≡ is_kind Read waiter }
{
    if !has_block(ready.as_slice(), &waiter.want) {
        ready.push(waiter);
    }
    waiter.is_kind(Kind::Read)
}

// Whether one of them is on the want's block.
fn has_block(ready: &[Waiter], want: &Want) -> bool
    ensures { result ≡ list_any (λ v. on_block v.want want.now) ready.now }
{
    ready
        .iter()
        .any(|v| want.lun == v.want.lun && want.block == v.want.block)
}
