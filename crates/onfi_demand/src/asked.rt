//! What a demand after a move asks for before it.

ghost use Rattle.std.specs.Prelude.{◌≡◌, ℕ, ◌≤◌, ◌<◌, length, slice_index, max};
ghost use Rattle.onfi_demand.specs.Kept.{demand_of};
ghost use Rattle.onfi_demand.specs.Asked.{own_asks, asked_by, greatest_by};

use crate::demand::Demand;

/// How a move's phase stands, in ns.
#[derive(Clone, Copy, Debug, PartialEq, Eq)]
pub struct Step {
    /// The LUN of the move.
    pub lun: u8,
    pub start: u64,
    pub end: u64,
    /// From when on the LUN may go on after it; None where nothing is left to it then.
    pub go: Option<u64>,
}

impl Demand {
    // The most that one of the first LUNs asks for through the bus, other than that of the move.
    fn through_bus(&self, step: &Step, count: usize) -> u64
        requires { count ≤ 8 }
        ensures { result ≡ greatest_by step.now (demand_of self.now) count }
    {
        let length = step.end.saturating_sub(step.start);
        let mut most = 0;
        for lun in 0..count {
            let time = self.luns[lun];
            if lun != step.lun as usize && time <= step.end {
                most = time.saturating_sub(length).max(most);
            }
        }
        most
    }

    // What is asked of the LUN of the move, where `count` LUNs are there.
    fn of_own(&self, step: &Step, count: usize) -> u64
        requires lun { step.now.lun < 8 }
        requires count { count ≤ 8 }
        ensures { result ≡ own_asks step.now count (demand_of self.now) }
    {
        let length = step.end.saturating_sub(step.start);
        let through = self.through_bus(step, count);
        let own = match step.go {
            Some(go) => self.luns[step.lun as usize].saturating_sub(
                length + go.saturating_sub(step.end),
            ),
            None => 0,
        };
        self.bus.saturating_sub(length).max(own.max(through))
    }

    /// Raises what is asked of each LUN by what this demand after a move asks before it, where `count` LUNs are there.
    pub fn raise(&self, step: &Step, count: usize, asked: &mut [u64; 8])
        requires lun { step.now.lun < 8 }
        requires count { count ≤ 8 }
        ensures { (lun : ℕ) → lun < 8 → slice_index asked.new lun ≡ max (slice_index asked.old lun) (asked_by step.now count (demand_of self.now) lun) }
    {
        let own = self.of_own(step, count);
        // (the LUN of the move is raised last, whatever the loop does to it)
        let raised = asked[step.lun as usize].max(own);
        for lun in 0..8usize {
            let time = self.luns[lun];
            if time > step.end {
                asked[lun] = asked[lun].max(time);
            }
        }
        asked[step.lun as usize] = raised;
    }
}
