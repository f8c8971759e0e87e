//! Moves, and what undoes them, in numbers.

ghost use Rattle.std.specs.Prelude.{◌≡◌};

/// A move of a problem: the next phase of a running LUN, or the first one of a group, given by the group's place
/// among the groups of the problem.
#[derive(Clone, Copy, Debug, PartialEq, Eq)]
pub enum Move {
    Next { lun: u8 },
    Start { lun: u8, place: u8 },
}

impl Move {
    ghost use Rattle.onfi_problem.specs.Position.{lun_named};

    /// The LUN that it is of, from 0.
    pub fn lun(&self) -> u8
        ensures { result ≡ lun_named self.now }
    {
        match self {
            Move::Next { lun } | Move::Start { lun, .. } => *lun,
        }
    }
}

/// What a LUN does, in numbers: from `time` on it may go on with phase `next` of the group at that place, or,
/// where `next` is 0, with any group.
#[derive(Clone, Copy, Debug, Default, PartialEq, Eq)]
pub struct Lun {
    pub next: u8,
    pub place: u8,
    pub time: u64,
}

/// What a move changed.
#[derive(Clone, Copy, Debug, PartialEq, Eq)]
pub struct Undo {
    pub lun: u8,
    pub state: Lun,
    pub bus_free: u64,
    pub waiting: [bool; 8],
}
