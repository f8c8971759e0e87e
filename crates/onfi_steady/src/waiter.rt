ghost use Rattle.std.specs.Prelude.{◌≡◌};
ghost use Rattle.onfi_steady.specs.Offer.{is_due, is_kind, turns_of};

use crate::own::operation_rank;
use onfi_request::Want;
use onfi_timing::{Kind, Operation};

/// A request that waits, and how many groups with a later request began on its LUN since it was accepted.
#[derive(Clone, Copy, Debug, Default, PartialEq, Eq)]
pub struct Waiter {
    pub want: Want,
    /// At most 65,535.
    pub passed: u16,
}

impl Waiter {
    /// Whether it goes first on its LUN: 128 groups passed it over, or 512 where it is an erase.
    pub fn is_due(&self) -> bool
        ensures { result ≡ is_due self.now }
    {
        self.passed >= turns_of(self.want.kind.operation())
    }

    /// Whether it has its LUN do what that kind does.
    pub fn is_kind(&self, kind: Kind) -> bool
        ensures { result ≡ is_kind kind self.now }
    {
        operation_rank(self.want.kind.operation()) == operation_rank(kind.operation())
    }
}

// So many groups with a later request may pass over a request.
fn turns_of(operation: Operation) -> u16
    ensures { result ≡ turns_of operation }
{
    match operation {
        Operation::Read | Operation::Program => 128,
        Operation::Erase => 512,
    }
}
