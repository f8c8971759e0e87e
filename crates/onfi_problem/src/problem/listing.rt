//! The moves of a problem, in their order.

ghost use Rattle.std.specs.Prelude.{◌≡◌, ◌+◌, ◌≤◌, ◌<◌, ◌++◌, [], IfOk, IfSome, List, length, slice_range, slice_get, slice_index_or};
ghost use Rattle.std.specs.List.{AllByRecursion as Each};
ghost use Rattle.std.specs.Option.{option_map};
ghost use Rattle.onfi_group.specs.Group.{lun_of};
ghost use Rattle.onfi_group.specs.Words.{Has};
ghost use Rattle.onfi_problem.specs.Moves.{Move as OneMove, IsMove, AreMoves};
ghost use Rattle.onfi_problem.specs.Position.{move_of, moves_of};
ghost use Rattle.onfi_problem.specs.Starts.{IsNamed, can_start, starts};

use super::Problem;
use crate::move_list::Moves;
use crate::moves::Move;
use std::alloc::{AllocError, Global};

impl Problem {
    /// All moves, in their order, without memory.
    pub fn steps(&self) -> Moves
        ensures moves { AreMoves self.now.problem (moves_of self.now.groups result) }
        ensures named { Each (IsNamed self.now.groups) result }
        ensures few { length result ≤ 87 }
    {
        let mut moves = Moves::new();
        self.list_steps(&mut moves);
        moves
    }

    /// Lists all moves, in their order, without memory, where none is listed yet. A walk lists them where they stand,
    /// since they are long to copy.
    #[inline(always)]
    pub fn list_steps(&self, moves: &mut Moves)
        requires empty { moves.old ≡ [] }
        ensures moves { AreMoves self.now.problem (moves_of self.now.groups moves.new) }
        ensures named { Each (IsNamed self.now.groups) moves.new }
        ensures few { length moves.new ≤ 87 }
    {
        for (at, state) in self.luns.iter().enumerate() {
            let lun = at as u8;
            if state.next == 0 {
                self.starts(lun, self.first[at], self.first[at + 1], moves);
            } else {
                moves.push(Move::Next { lun });
            }
        }
    }

    /// All moves, in their order.
    ///
    /// # Errors
    /// Only where memory was refused.
    pub fn moves(&self, alloc: Global) -> Result<Vec<Move>, AllocError>
        ensures moves { IfOk result (λ v. AreMoves self.now.problem (moves_of self.now.groups v.items)) }
        ensures named { IfOk result (λ v. Each (IsNamed self.now.groups) v.items) }
    {
        Vec::from_slice(alloc, self.steps().as_slice())
    }

    /// How many moves there are, at most 87.
    pub fn move_count(&self) -> usize
        ensures count { (moves : List OneMove) → AreMoves self.now.problem moves → result ≡ length moves }
        ensures few { result ≤ 87 }
    {
        self.steps().len()
    }

    /// The move at a place of the list of all moves, counted from 0.
    pub fn move_at(&self, at: usize) -> Option<Move>
        ensures value { (moves : List OneMove) → AreMoves self.now.problem moves →
            option_map (move_of self.now.groups) result ≡ slice_get moves at }
        ensures move_of_it { IfSome result (λ m. IsMove self.now.problem (move_of self.now.groups m)) }
        ensures named { IfSome result (λ m. IsNamed self.now.groups m) }
    {
        self.steps().get(at)
    }

    // Appends to the moves those of the groups from one place to another, all of that LUN, that may be started.
    fn starts(&self, lun: u8, from: usize, to: usize, moves: &mut Moves)
        requires order { from ≤ to }
        requires within { to ≤ length self.now.groups }
        requires places { to ≤ 256 }
        requires few { lun < 8 }
        requires luns { Each (λ g. lun_of g ≡ lun) (slice_range self.now.groups from to) }
        requires listed { Each (λ g. Each (Has self.now.all) g) (slice_range self.now.groups from to) }
        requires room { length moves.old + length (starts self.now.problem.wants self.now.groups from to) ≤ 87 }
        ensures moves { let now = self.now in
            moves_of now.groups moves.new ≡ moves_of now.groups moves.old ++ starts now.problem.wants now.groups from to }
        ensures named { Each (IsNamed self.now.groups) moves.old → Each (IsNamed self.now.groups) moves.new }
    {
        for place in from..to {
            if self.can_start(place) {
                moves.push(Move::Start {
                    lun,
                    place: place as u8,
                });
            }
        }
    }

    // Whether each member of the group at that place waits first on its block, which its marks show.
    fn can_start(&self, place: usize) -> bool
        requires within { place < length self.now.groups }
        requires listed { Each (Has self.now.all) (slice_index_or self.now.groups place []) }
        ensures { result ≡ can_start self.now.problem.wants (slice_index_or self.now.groups place []) }
    {
        self.start_marks[place].are_met(&self.waiting)
    }
}
