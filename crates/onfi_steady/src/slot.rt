//! A request as numbers, which C can keep.
ghost use Rattle.std.specs.Prelude.{◌≡◌, ◌≤◌, [], length, take, IfSome, slice_get};
ghost use Rattle.onfi_steady.specs.Slots.{kind_named, waiter_in, want_in, wants_in};

use crate::waiter::Waiter;
use arrayvec::ArrayVec;
use onfi_request::Want;
use onfi_timing::Kind;

/// A request that waits or runs, and how many groups with a later request began on its LUN since it was accepted.
#[repr(C)]
#[derive(Clone, Copy, Debug, Default, PartialEq, Eq)]
pub struct Slot {
    pub id: u64,
    pub block: u16,
    pub page: u16,
    pub passed: u16,
    /// 0 reads, 1 programs, 2 erases; another number reads `count` sectors from sector `first` on.
    pub kind: u8,
    pub first: u8,
    pub count: u8,
    pub lun: u8,
    pub plane: u8,
}

impl Slot {
    /// Of a request that no group passed over.
    pub fn of(want: &Want) -> Slot
        ensures { waiter_in result ≡ record { want = want.now; passed = 0 } }
    {
        match want.kind {
            Kind::Read => slot_of(want, 0, 0, 0),
            Kind::Program => slot_of(want, 1, 0, 0),
            Kind::Erase => slot_of(want, 2, 0, 0),
            Kind::ReadSectors { first, count } => slot_of(want, 3, first, count),
        }
    }

    /// What it reads, programs or erases.
    pub fn kind(&self) -> Kind
        ensures { result ≡ kind_named self.now.kind self.now.first self.now.count }
    {
        if self.kind == 0 {
            return Kind::Read;
        }
        if self.kind == 1 {
            return Kind::Program;
        }
        if self.kind == 2 {
            return Kind::Erase;
        }
        Kind::ReadSectors {
            first: self.first,
            count: self.count,
        }
    }

    /// The request.
    pub fn want(&self) -> Want
        ensures { result ≡ want_in self.now }
    {
        Want {
            id: self.id,
            kind: self.kind(),
            lun: self.lun,
            plane: self.plane,
            block: self.block,
            page: self.page,
        }
    }

    /// The request that waits.
    pub fn waiter(&self) -> Waiter
        ensures { result ≡ waiter_in self.now }
    {
        Waiter {
            want: self.want(),
            passed: self.passed,
        }
    }
}

// The request with its kind as numbers.
fn slot_of(want: &Want, kind: u8, first: u8, count: u8) -> Slot
    ensures { result ≡ record { id = want.now.id; block = want.now.block; page = want.now.page; passed = 0; kind = kind; first = first; count = count; lun = want.now.lun; plane = want.now.plane } }
{
    Slot {
        id: want.id,
        block: want.block,
        page: want.page,
        passed: 0,
        kind,
        first,
        count,
        lun: want.lun,
        plane: want.plane,
    }
}

/// Up to four of these as numbers.
pub fn slots_of(members: &[Want]) -> [Slot; 4]
    requires { length members.now ≤ 4 }
    ensures members { wants_in (take (length members.now) result) ≡ members.now }
    ensures four { length result ≡ 4 }
{
    [
        slot_at(members, 0),
        slot_at(members, 1),
        slot_at(members, 2),
        slot_at(members, 3),
    ]
}

// The one at that place, where there is one.
fn slot_at(members: &[Want], at: usize) -> Slot
    ensures { IfSome (slice_get members.now at) (λ m. want_in result ≡ m) }
{
    match members.get(at) {
        Some(member) => Slot::of(member),
        None => Slot::default(),
    }
}

/// Puts these as requests into the empty list.
pub fn list_wants(wants: &mut ArrayVec<Want, 4>, slots: &[Slot])
    requires none { wants.old.items ≡ [] }
    requires few { length slots.now ≤ 4 }
    ensures { wants.new.items ≡ wants_in slots.now }
{
    for slot in slots {
        wants.push(slot.want());
    }
}
