ghost use Rattle.std.specs.Prelude.{◌≡◌};
ghost use Rattle.onfi_timing.specs.Kinds.{same_operation};

/// What a command has a LUN do, whatever is put out afterwards (ONFI 4.2, command definition).
#[derive(Clone, Copy, Debug, Default, PartialEq, Eq)]
pub enum Operation {
    /// Its array is read; pages or sectors of pages are put out.
    #[default]
    Read,
    Program,
    Erase,
}

impl Operation {
    /// Whether both are the same.
    pub fn is(self, other: Operation) -> bool
        ensures { result ≡ same_operation self other }
    {
        match self {
            Operation::Read => matches!(other, Operation::Read),
            Operation::Program => matches!(other, Operation::Program),
            Operation::Erase => matches!(other, Operation::Erase),
        }
    }
}
