ghost use Rattle.std.specs.Prelude.{◌≡◌, if◌then◌else◌, true, false};
ghost use Rattle.onfi_timing.specs.declared.operation.Operation.{Operation as AnyOperation};
ghost use Rattle.onfi_bound.specs.Bounds.{same_operation};
ghost use Rattle.onfi_bound.specs.Parts.{has_operation};

use onfi_timing::Operation;

/// A set of operations.
#[derive(Clone, Copy)]
pub struct Operations {
    pub read: bool,
    pub program: bool,
    pub erase: bool,
}

impl Operations {
    /// No operation.
    pub fn none() -> Operations
        ensures { (operation : AnyOperation) → has_operation result operation ≡ false }
    {
        Operations {
            read: false,
            program: false,
            erase: false,
        }
    }

    /// These operations and one more.
    pub fn with(self, more: Operation) -> Operations
        ensures { (operation : AnyOperation) → has_operation result operation ≡ (if has_operation self operation then true else same_operation operation more) }
    {
        match more {
            Operation::Read => Operations { read: true, ..self },
            Operation::Program => Operations {
                program: true,
                ..self
            },
            Operation::Erase => Operations {
                erase: true,
                ..self
            },
        }
    }
}
