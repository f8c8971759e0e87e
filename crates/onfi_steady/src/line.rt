//! What waits for a LUN.
ghost use Rattle.std.specs.Prelude.{◌≡◌, ◌+◌, ◌<◌, ◌≤◌, ◌∷◌, ◌++◌, [], length, nat_lt, not};

use crate::begin::Begin;
use crate::line_left::{list_left, list_others};
use crate::slot::Slot;
use arrayvec::ArrayVec;

/// The requests that wait for a LUN, up to 64, oldest first.
#[repr(C)]
#[derive(Clone, Copy)]
pub struct Line {
    pub slot: [Slot; 64],
    pub count: Count,
}

/// So many wait.
#[repr(C)]
#[derive(Clone, Copy)]
pub struct Count {
    pub of: u8,
    ghost room: { of ≤ 64 },
}

impl Line {
    ghost use Rattle.onfi_steady.specs.Slots.{is_line_below, left_of, others_of, slots_in};

    /// Nothing waits.
    pub fn new() -> Line
        ensures { slots_in result ≡ [] }
    {
        Line {
            slot: [Slot::default(); 64],
            count: Count { of: 0 },
        }
    }

    /// Nothing waits from now on.
    pub fn clear(&mut self)
        ensures { slots_in self.new ≡ [] }
    {
        self.count = Count { of: 0 };
    }

    /// What waits, oldest first.
    pub fn as_slice(&self) -> &[Slot]
        ensures value { result.now ≡ slots_in self.now }
        ensures few { length result.now ≤ 64 }
    {
        &self.slot[..usize::from(self.count.of)]
    }

    /// Whether no more may wait.
    pub fn is_full(&self) -> bool
        ensures { result ≡ not (nat_lt (length (slots_in self.now)) 64) }
    {
        self.count.of >= 64
    }

    /// Whether a number is above that of the last one that waits.
    pub fn is_below(&self, id: u64) -> bool
        ensures { result ≡ is_line_below self.now id }
    {
        if self.count.of == 0 {
            return true;
        }
        self.slot[usize::from(self.count.of) - 1].id < id
    }

    /// One more waits, after the others.
    pub fn push(&mut self, slot: Slot)
        requires { length (slots_in self.old) < 64 }
        ensures { slots_in self.new ≡ slots_in self.old ++ slot ∷ [] }
    {
        self.slot[usize::from(self.count.of)] = slot;
        self.count = Count {
            of: self.count.of + 1,
        };
    }

    /// One more waits, before the others.
    pub fn push_first(&mut self, slot: Slot)
        requires { length (slots_in self.old) < 64 }
        ensures { slots_in self.new ≡ slot ∷ slots_in self.old }
    {
        let mut list: ArrayVec<Slot, 64> = ArrayVec::new();
        list.push(slot);
        let _ = list.try_extend_from_slice(self.as_slice());
        self.put_back(list.as_slice());
    }

    /// The one of that number waits no more.
    pub fn take_out(&mut self, id: u64)
        ensures { slots_in self.new ≡ others_of id (slots_in self.old) }
    {
        let mut others = ArrayVec::new();
        list_others(&mut others, id, self.as_slice());
        self.put_back(others.as_slice());
    }

    /// What begins on the LUN waits no more, and passes over what was accepted before one of it.
    pub fn leave(&mut self, lun: u8, begin: &Begin)
        ensures { slots_in self.new ≡ left_of lun begin.now (slots_in self.old) }
    {
        let mut left = ArrayVec::new();
        list_left(&mut left, lun, begin, self.as_slice());
        self.put_back(left.as_slice());
    }

    // Keeps these in place of what waited.
    fn put_back(&mut self, slots: &[Slot])
        requires { length slots.now ≤ 64 }
        ensures { slots_in self.new ≡ slots.now }
    {
        self.slot[..slots.len()].copy_from_slice(slots);
        self.count = Count {
            of: slots.len() as u8,
        };
    }
}
