//! What the bounds ask for that close a node, in ns.

ghost use Rattle.std.specs.Prelude.{◌≡◌, ◌-◌, ◌<◌, length};
ghost use Rattle.onfi_bound.specs.Bounds.{bus, die};
ghost use Rattle.onfi_demand.specs.Demand.{of_bus, of_one, bus_demand, trail_demand, die_demand};
ghost use Rattle.onfi_demand.specs.Kept.{IsKept};

use crate::demand::Demand;
use crate::left::has_left;
use onfi_problem::Problem;
use onfi_timing::Timing;

impl Demand {
    /// Asks for the bus alone.
    pub fn of_bus(time: u64) -> Demand
        ensures { IsKept result (of_bus time) }
    {
        Demand {
            bus: time,
            luns: [0; 8],
        }
    }

    /// Asks for one LUN alone.
    pub fn of_lun(lun: u8, time: u64) -> Demand
        requires { lun < 8 }
        ensures { IsKept result (of_one lun time) }
    {
        let mut luns = [0; 8];
        luns[lun as usize] = time;
        Demand { bus: 0, luns }
    }

    /// What the bus bound asks for, where it reaches `e`.
    pub fn of_bus_bound(problem: &Problem, at: u64, e: u64) -> Demand
        requires { at ≡ bus problem.now.problem }
        ensures { IsKept result (bus_demand problem.now.problem e) }
    {
        let left = at - problem.bus_free();
        Demand::of_bus(e.saturating_sub(left))
    }

    /// What the trail bound asks for that comes to `at`.
    pub fn of_trail(problem: &Problem, at: u64, e: u64) -> Demand
        ensures { IsKept result (trail_demand problem.now.problem at e) }
    {
        let left = at.saturating_sub(problem.bus_free());
        Demand::of_bus(e.saturating_sub(left))
    }

    /// What the die bound of a LUN asks for.
    pub fn of_die(problem: &Problem, lun: u8, at: u64, e: u64) -> Demand
        requires lun { lun < length problem.now.problem.luns }
        requires at { at ≡ die problem.now.problem lun }
        ensures { IsKept result (die_demand problem.now.problem lun e) }
    {
        let count = problem.lun_count();
        if has_left(problem, lun) {
            let left = at.saturating_sub(problem.may_go(lun));
            Demand::of_lun(lun, e.saturating_sub(left))
        } else {
            Demand::of_bus(e)
        }
    }
}
