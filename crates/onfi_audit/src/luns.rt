ghost use Rattle.std.specs.Prelude.{◌≡◌, ◌<◌, ◌≤◌, [], ◌∷◌, ◌++◌, length, map, slice_set};
ghost use Rattle.onfi_audit.specs.Audit.{stage_of};

use crate::stage::LunStage;
use onfi_problem::LunState;
use std::array;
use std::marker::Model;

/// What each LUN does, at most eight, kept inline.
#[derive(Drop)]
pub(crate) struct Luns {
    stages: [LunStage; 8],
    count: usize,
}

impl Model for Luns {
    ghost use Rattle.std.specs.Prelude.{◌≡◌, List, take, length, ◌≤◌};
    ghost use Rattle.onfi_audit.specs.declared.stage.LunStage.{LunStage as Stage};

    ghost Value = { List Stage };

    ghost view = { λ l. take l.count l.stages };

    ghost invariant = { λ l. (l.count ≤ 8) × (length l.stages ≡ 8) };
}

impl Luns {
    fn new() -> Luns
        ensures { result ≡ [] }
    {
        Luns {
            stages: array::from_fn(|_| LunStage::Free { since: 0 }),
            count: 0,
        }
    }

    /// LUNs that do this, with all members of what they run known.
    pub(crate) fn of(states: &[LunState]) -> Luns
        requires { length states.now ≤ 8 }
        ensures { result ≡ map stage_of states.now }
    {
        let mut luns = Luns::new();
        for state in states {
            luns.push(stage_of(state));
        }
        luns
    }

    /// LUNs that do this.
    pub(crate) fn copy_of(stages: &[LunStage]) -> Luns
        requires { length stages.now ≤ 8 }
        ensures { result ≡ stages.now }
    {
        let mut luns = Luns::new();
        for stage in stages {
            luns.push(stage.copy());
        }
        luns
    }

    fn push(&mut self, stage: LunStage)
        requires { length self.old < 8 }
        ensures { self.new ≡ self.old ++ stage ∷ [] }
    {
        self.stages[self.count] = stage;
        self.count += 1;
    }

    /// That LUN does this from now on.
    pub(crate) fn set(&mut self, lun: usize, stage: LunStage)
        requires { lun < length self.old }
        ensures { self.new ≡ slice_set self.old lun stage }
    {
        let _few = self.as_slice();
        self.stages[lun] = stage;
    }

    /// What each does.
    pub(crate) fn as_slice(&self) -> &[LunStage]
        ensures value { result.now ≡ self.now }
        ensures few { length self.now ≤ 8 }
    {
        &self.stages[..self.count]
    }
}

/// What a LUN does, with all members of what it runs known.
pub(crate) fn stage_of(state: &LunState) -> LunStage
    ensures { result ≡ stage_of state.now }
{
    match state {
        LunState::Free { since } => LunStage::Free { since: *since },
        LunState::Running { group, next, ready } => LunStage::Running {
            group: group.copy(),
            next: *next,
            ready: *ready,
        },
    }
}
