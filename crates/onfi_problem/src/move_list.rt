ghost use Rattle.std.specs.Prelude.{◌≡◌, ◌≤◌, ◌<◌, ◌==◌, [], ◌∷◌, ◌++◌, length, slice_get};

use crate::moves::Move;
use std::marker::Model;

/// How many moves a problem has at most: 80 groups of one LUN, and seven LUNs that run.
const MOST: usize = 87;

/// The moves of a problem in their order, kept inline.
#[derive(Drop)]
pub struct Moves {
    moves: [Move; MOST],
    count: usize,
}

impl Model for Moves {
    ghost use Rattle.std.specs.Prelude.{◌≡◌, List, take, length, ◌≤◌};
    ghost use Rattle.onfi_problem.specs.declared.moves.Move.{Move as One};

    ghost Value = { List One };

    ghost view = { λ m. take m.count m.moves };

    ghost invariant = { λ m. (m.count ≤ 87) × (length m.moves ≡ 87) };
}

impl Moves {
    /// No move.
    #[inline(always)]
    pub fn new() -> Moves
        ensures { result ≡ [] }
    {
        Moves {
            moves: [Move::Next { lun: 0 }; MOST],
            count: 0,
        }
    }

    pub(crate) fn push(&mut self, m: Move)
        requires { length self.old < 87 }
        ensures { self.new ≡ self.old ++ m ∷ [] }
    {
        self.moves[self.count] = m;
        self.count += 1;
    }

    /// How many there are, at most 87.
    pub fn len(&self) -> usize
        ensures value { result ≡ length self.now }
        ensures few { result ≤ 87 }
    {
        self.as_slice().len()
    }

    /// Whether there is none.
    pub fn is_empty(&self) -> bool
        ensures { result ≡ (length self.now == 0) }
    {
        self.count == 0
    }

    /// The moves, at most 87.
    pub fn as_slice(&self) -> &[Move]
        ensures value { result.now ≡ self.now }
        ensures few { length result.now ≤ 87 }
    {
        &self.moves[..self.count]
    }

    /// The move at a place, counted from 0.
    pub fn get(&self, at: usize) -> Option<Move>
        ensures { result ≡ slice_get self.now at }
    {
        self.as_slice().get(at).copied()
    }
}
