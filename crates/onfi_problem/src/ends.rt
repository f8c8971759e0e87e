ghost use Rattle.std.specs.Prelude.{◌≡◌, ◌<◌, ◌^◌, [], length, slice_index_or};
ghost use Rattle.onfi_group.specs.Group.{lun_of};
ghost use Rattle.onfi_problem.specs.Moves.{IsMove, after, may_go, move_lun, Next, Start};
ghost use Rattle.onfi_problem.specs.Position.{move_of, lun_named};

use crate::moves::Move;
use crate::problem::Problem;
use onfi_group::phase_length;

impl Problem {
    /// From when on a LUN may go on, in ns: the earliest start of each of its moves.
    pub fn may_go(&self, lun: u8) -> u64
        requires { lun < length self.now.problem.luns }
        ensures value { result ≡ may_go self.now.problem lun }
        ensures small { result < 2 ^ 62 }
    {
        let from = self.luns()[lun as usize].time;
        self.bus_free().max(from)
    }

    /// When the phase of a move ends that starts at its earliest, in ns.
    pub fn end_of(&self, m: Move) -> u64
        requires step { IsMove self.now.problem (move_of self.now.groups m) }
        requires lun { move_lun (move_of self.now.groups m) ≡ lun_named m }
        ensures value { result ≡ (after self.now.problem (move_of self.now.groups m)).bus_free }
        ensures small { result < 2 ^ 62 }
    {
        match m {
            Move::Next { lun } => self.end_of_next(lun),
            Move::Start { lun, place } => self.end_of_start(lun, place),
        }
    }

    fn end_of_next(&self, lun: u8) -> u64
        requires { IsMove self.now.problem (Next lun) }
        ensures value { result ≡ (after self.now.problem (Next lun)).bus_free }
        ensures small { result < 2 ^ 62 }
    {
        let state = self.luns()[lun as usize];
        let start = self.bus_free().max(state.time);
        let group = &self.groups()[state.place as usize];
        start + phase_length(self.timing(), group.members(), state.next as usize)
    }

    fn end_of_start(&self, lun: u8, place: u8) -> u64
        requires step { IsMove self.now.problem (Start (slice_index_or self.now.groups place [])) }
        requires lun { lun_of (slice_index_or self.now.groups place []) ≡ lun }
        ensures value { result ≡ (after self.now.problem (Start (slice_index_or self.now.groups place []))).bus_free }
        ensures small { result < 2 ^ 62 }
    {
        let start = self.bus_free().max(self.luns()[lun as usize].time);
        let group = &self.groups()[place as usize];
        start + phase_length(self.timing(), group.members(), 0)
    }
}
