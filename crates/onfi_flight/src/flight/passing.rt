//! Time that passes, and plans that follow each other.

ghost use Rattle.std.specs.Prelude.{◌≡◌, ℕ, ◌+◌, ◌<◌, ◌^◌, ◌↔◌, List, Some, length, max, slice_get, slice_set, IfOk, IsOk, OnErr};
ghost use Rattle.onfi_request.specs.declared.want.Want.{Want as AWant};
ghost use Rattle.onfi_problem.specs.declared.lun_state.LunState.TheVariants.{Running};
ghost use Rattle.onfi_flight.specs.Flight.{latest_waited, readied, ready_of, waited};

use crate::flight::Flight;
use crate::lag::lag_of;
use crate::later::delay_schedule;
use arrayvec::ArrayVec;
use onfi_problem::LunState;
use onfi_request::Want;
use onfi_schedule::Schedule;
use std::alloc::Global;

/// All moments of a channel are before this one, in ns.
pub(crate) const END: u64 = 1 << 62;

/// A start, or a moment, would be at 2^62 ns or later.
#[derive(Clone, Copy, Debug, PartialEq, Eq)]
pub struct TooLate;

impl Flight {
    /// The bus was idle until that moment, in ns of the channel's clock: no phase starts sooner. What is left starts later,
    /// all of it by as much as its first phase would start too soon; it stays legal. From when on the bus is free is answered.
    ///
    /// # Errors
    /// Where the moment, or a start, would be at 2^62 ns or later; then nothing changes.
    pub fn wait(&mut self, alloc: Global, moment: u64) -> Result<u64, TooLate>
        ensures waited { IfOk result (λ bus_free. (bus_free ≡ max self.old.now.bus_free moment) × (self.new ≡ waited moment self.old)) }
        ensures in_time { IsOk result ↔ (latest_waited moment self.old < 2 ^ 62) }
        ensures unchanged { OnErr result (self.new ≡ self.old) }
    {
        let lag = lag_of(moment, self.left.rest(), self.left.groups());
        if moment.max(lag.latest.saturating_add(lag.by)) >= END {
            return Err(TooLate);
        }
        self.bus_free = self.bus_free.max(moment);
        self.left = delay_schedule(alloc, lag.by, &self.left);
        Ok(self.bus_free)
    }

    /// The group that runs on that LUN may go on from that moment, or as it might before where that is sooner; what is left
    /// stays legal. From when on is answered, in ns.
    pub fn ready(&mut self, lun: u8, moment: u64) -> u64
        requires { (group : List AWant) × (next : ℕ) × (ready : ℕ) × (slice_get self.old.now.luns lun ≡ Some (Running group next ready)) }
        ensures readied { self.new ≡ readied lun moment self.old }
        ensures ready { result ≡ ready_of lun moment self.old }
    {
        let at = usize::from(lun);
        let LunState::Running { group, next, ready } = &self.luns()[at] else {
            unreachable!();
        };
        let sooner = (*ready).min(moment);
        let state = LunState::Running {
            group: group.copy(),
            next: *next,
            ready: sooner,
        };
        self.luns.set(at, state);
        sooner
    }

    /// That LUN does this from now on.
    pub fn set_lun(&mut self, lun: u8, state: LunState)
        requires { lun < length self.old.now.luns }
        ensures { self.new ≡ record self.old { now = record self.old.now { luns = slice_set self.old.now.luns lun state } } }
    {
        self.luns.set(usize::from(lun), state);
    }

    /// These wants wait from now on, and these starts are left: a plan of the problem as it stands with these wants.
    pub fn replan(&mut self, wants: ArrayVec<Want, 8>, left: Schedule)
        ensures { self.new ≡ record { now = record self.old.now { wants = wants.items }; left = left } }
    {
        self.wants = wants;
        self.left = left;
    }
}
