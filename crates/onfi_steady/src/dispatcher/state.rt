//! What a dispatcher knows of bus and LUNs.
ghost use Rattle.std.specs.Prelude.{◌≡◌, ℕ, ◌<◌, Some, length, slice_get, MatchOption};
ghost use Rattle.onfi_problem.specs.Moves.{free_from};
ghost use Rattle.onfi_problem.specs.declared.lun_state.LunState.TheVariants.{Free, Running};
ghost use Rattle.onfi_steady.specs.Dispatcher.{states_of};

use crate::dispatcher::Dispatcher;
use crate::slot::list_wants;
use arrayvec::ArrayVec;
use onfi_group::Group;
use std::alloc::Global;

impl Dispatcher {
    /// From when on the bus is free, in ns.
    pub fn bus_free(&self) -> u64
        ensures { result ≡ self.now.bus_free }
    {
        self.bus_free
    }

    /// From when on that LUN is free, or the next phase of what it runs may start, in ns.
    pub fn free_from(&self, lun: u8) -> u64
        requires { lun < length (states_of self.now) }
        ensures { result ≡ free_from (slice_get (states_of self.now) lun) }
    {
        self.lun[usize::from(lun)].run.since
    }

    /// The group that runs on that LUN, and the number of its next phase; none where nothing runs. It takes no memory.
    pub fn going(&self, alloc: Global, lun: u8) -> Option<(Group, u8)>
        requires { lun < length (states_of self.now) }
        ensures { MatchOption result ((since : ℕ) × (slice_get (states_of self.now) lun ≡ Some (Free since)))
            (λ run. (ready : ℕ) × (slice_get (states_of self.now) lun ≡ Some (Running run.0 run.1 ready))) }
    {
        let run = &self.lun[usize::from(lun)].run;
        if run.members == 0 {
            return None;
        }
        let mut wants = ArrayVec::new();
        list_wants(&mut wants, &run.member[..usize::from(run.members)]);
        Some((Group::of(alloc, wants.as_slice()), run.next))
    }
}
