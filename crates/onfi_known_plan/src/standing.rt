//! How a node stands while its children are walked over.

ghost use Rattle.std.specs.Prelude.{◌≡◌, ◌≢◌, ◌<◌, ℕ, true, false, slice_index, slice_index_or};

/// What the children of a node ask of each LUN so far, in ns; which LUNs yield; and whether a sooner finish was found
/// below one of them.
#[derive(Clone, Copy)]
pub struct Standing {
    pub asked: [u64; 8],
    pub yielded: [bool; 8],
    pub improved: bool,
}

impl Standing {
    /// Before the first child.
    pub fn new() -> Standing
        ensures asked { (lun : ℕ) → slice_index result.asked lun ≡ 0 }
        ensures yielded { (lun : ℕ) → slice_index_or result.yielded lun false ≡ false }
        ensures improved { result.improved ≡ false }
    {
        Standing {
            asked: [0; 8],
            yielded: [false; 8],
            improved: false,
        }
    }

    /// Marks a LUN whose move yields.
    pub fn mark(&mut self, lun: u8)
        requires { lun < 8 }
        ensures asked { self.new.asked ≡ self.old.asked }
        ensures improved { self.new.improved ≡ self.old.improved }
        ensures here { slice_index_or self.new.yielded lun false ≡ true }
        ensures others { (other : ℕ) → other ≢ lun → slice_index_or self.new.yielded other false ≡ slice_index_or self.old.yielded other false }
    {
        self.yielded[lun as usize] = true;
    }
}
