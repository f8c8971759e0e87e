ghost use Rattle.std.specs.Prelude.{◌≡◌, ◌≢◌, ◌<◌, ◌≤◌, [], ◌∷◌, ◌++◌, length, replicate, slice_index_or, slice_set};
ghost use Rattle.onfi_problem.specs.Position.{state_of};
ghost use Rattle.onfi_problem.specs.declared.lun_state.LunState.TheVariants.{Free};

use onfi_problem::{Lun, LunState, Problem};
use std::array;
use std::marker::Model;

/// What each LUN does, at most eight, kept inline.
#[derive(Drop)]
pub(crate) struct Luns {
    states: [LunState; 8],
    count: usize,
}

impl Model for Luns {
    ghost use Rattle.std.specs.Prelude.{◌≡◌, List, take, length, ◌≤◌};
    ghost use Rattle.onfi_problem.specs.declared.lun_state.LunState.{LunState as State};

    ghost Value = { List State };

    ghost view = { λ l. take l.count l.states };

    ghost invariant = { λ l. (l.count ≤ 8) × (length l.states ≡ 8) };
}

impl Luns {
    fn new() -> Luns
        ensures { result ≡ [] }
    {
        Luns {
            states: array::from_fn(|_| LunState::Free { since: 0 }),
            count: 0,
        }
    }

    /// That many LUNs that are free from 0 on.
    pub(crate) fn free(count: u8) -> Luns
        requires { count ≤ 8 }
        ensures { result ≡ replicate count (Free 0) }
    {
        let mut luns = Luns::new();
        for _lun in 0..count {
            luns.push(LunState::Free { since: 0 });
        }
        luns
    }

    /// Those of the problem.
    pub(crate) fn of(problem: &Problem) -> Luns
        ensures { result ≡ problem.now.problem.luns }
    {
        problem.in_limits();
        let mut luns = Luns::new();
        for lun in problem.luns() {
            luns.push(state_of(problem, lun));
        }
        luns
    }

    fn push(&mut self, state: LunState)
        requires { length self.old < 8 }
        ensures { self.new ≡ self.old ++ state ∷ [] }
    {
        self.states[self.count] = state;
        self.count += 1;
    }

    /// That LUN does this from now on.
    pub(crate) fn set(&mut self, lun: usize, state: LunState)
        requires { lun < length self.old }
        ensures { self.new ≡ slice_set self.old lun state }
    {
        let _few = self.as_slice();
        self.states[lun] = state;
    }

    /// What each does.
    pub(crate) fn as_slice(&self) -> &[LunState]
        ensures value { result.now ≡ self.now }
        ensures few { length self.now ≤ 8 }
    {
        &self.states[..self.count]
    }
}

// What a LUN of the problem does.
fn state_of(problem: &Problem, lun: &Lun) -> LunState
    requires { lun.now.next ≢ 0 → 1 ≤ length (slice_index_or problem.now.groups lun.now.place []) }
    ensures { result ≡ state_of problem.now.groups lun.now }
{
    if lun.next == 0 {
        return LunState::Free { since: lun.time };
    }
    LunState::Running {
        group: problem.group(lun.place).copy(),
        next: lun.next,
        ready: lun.time,
    }
}
