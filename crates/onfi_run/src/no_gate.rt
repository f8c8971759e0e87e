//! Gates that hold nothing up.
ghost use Rattle.std.specs.Prelude.{◌≡◌, length, IfOk};

use onfi_seq::Gate;
use std::alloc::{AllocError, Global};

/// A gate that holds nothing up.
#[derive(Clone, Copy)]
pub struct NoGate;

impl Gate for NoGate {
    fn before(&mut self, _channel: u8, _turn: u64) {}
}

/// One for each of the four channels that a run may have.
///
/// # Errors
/// Where memory was refused.
pub fn no_gates(alloc: Global) -> Result<Vec<NoGate>, AllocError>
    ensures { IfOk result (λ gates. length gates.items ≡ 4) }
{
    Vec::from_elem(alloc, NoGate, 4)
}
