ghost use Rattle.std.specs.Prelude.{◌≡◌};
ghost use Rattle.onfi_timing.specs.Kinds.{operation_of, sectors_of};

use crate::operation::Operation;

/// What an operation does to a page or a block (ONFI 4.2, command definition).
#[derive(Clone, Copy, Debug, Default, PartialEq, Eq)]
pub enum Kind {
    /// Read: 00h, address, 30h, then the data output.
    #[default]
    Read,
    /// Page program: 80h, address, data, 10h, then the status.
    Program,
    /// Block erase: 60h, row address, D0h, then the status.
    Erase,
    /// A read of which `count` sectors are put out, from sector `first` on (ONFI 4.2, Change Read Column Enhanced); all of the
    /// page where `count` is 0.
    ReadSectors { first: u8, count: u8 },
}

impl Kind {
    /// What the LUN does.
    pub fn operation(self) -> Operation
        ensures { result ≡ operation_of self }
    {
        match self {
            Kind::Read | Kind::ReadSectors { .. } => Operation::Read,
            Kind::Program => Operation::Program,
            Kind::Erase => Operation::Erase,
        }
    }

    /// How many sectors are put out; 0 where that is all of the page, or nothing.
    pub fn sectors(self) -> u8
        ensures { result ≡ sectors_of self }
    {
        match self {
            Kind::ReadSectors { count, .. } => count,
            _ => 0,
        }
    }
}
