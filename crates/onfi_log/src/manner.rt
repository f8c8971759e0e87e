ghost use Rattle.std.specs.Prelude.{◌≡◌};
ghost use Rattle.onfi_log.specs.Manner.{exact};

use crate::readies::Readies;

/// Of which planes of a program's or an erase's group a log has statuses.
#[derive(Clone, Copy, Debug, PartialEq, Eq)]
pub enum Statuses {
    /// Each plane has its own.
    EachPlane,
    /// The group has one, of any of its planes, with which it is over.
    OneForAll,
}

/// How a log is taken.
#[derive(Clone, Copy, Debug, PartialEq, Eq)]
pub struct Manner {
    /// From when on LUNs are ready.
    pub readies: Readies,
    /// A phase may come that much too soon, in ns.
    pub tolerance: u64,
    pub statuses: Statuses,
}

impl Manner {
    /// By the stated times alone, to the ns, with a status of each plane.
    pub fn exact() -> Manner
        ensures { result ≡ exact }
    {
        Manner {
            readies: Readies::Stated,
            tolerance: 0,
            statuses: Statuses::EachPlane,
        }
    }
}
