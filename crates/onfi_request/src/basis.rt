ghost use Rattle.std.specs.Prelude.{◌≡◌, List, []};
ghost use Rattle.std.specs.Borrow.{ftrue};
ghost use Rattle.onfi_request.specs.declared.request.Item.{Item as AnItem};
ghost use Rattle.onfi_request.specs.declared.fault.Fault.{Fault as AFault};

use std::marker::Model;

/// What a reply rests on, for contracts alone: it takes no memory.
#[derive(Debug, Drop)]
pub struct Basis {
    /// The items that the channel had accepted when the reply was made.
    pub ghost accepted: { List AnItem },
    /// The faults of the channel's chip.
    pub ghost faults: { List AFault },
}

impl Model for Basis {
    ghost also_owns = { λ _. ftrue };
}

// It owns nothing.
unsafe impl Send for Basis {}

impl Basis {
    /// The basis that the caller's proof picks, from the two values that it shows.
    pub fn of<T, U>(_accepted: &T, _faults: &U) -> Basis
        ghost all: { List AnItem × List AFault }
        ensures { (result.accepted ≡ all.0) × (result.faults ≡ all.1) }
    {
        Basis {}
    }

    /// Nothing accepted, and no fault.
    pub fn new() -> Basis
        ensures { (result.accepted ≡ []) × (result.faults ≡ []) }
    {
        Basis::of(&(), &())
    }
}
