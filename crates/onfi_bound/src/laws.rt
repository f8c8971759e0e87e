//! What the bounds promise, once for all problems: no legal schedule and no run ends before any of them.

ghost use Rattle.std.specs.Prelude.{◌≡◌, ℕ, ◌^◌, ◌≤◌, ◌<◌, List, length, Some};
ghost use Rattle.onfi_problem.specs.Problem.{Problem, IsProblem};
ghost use Rattle.onfi_problem.specs.Left.{InLimits};
ghost use Rattle.onfi_schedule.specs.Schedule.{Schedule, Legal, finish};
ghost use Rattle.onfi_schedule.specs.Runs.{Step, Run};
ghost use Rattle.onfi_bound.specs.Bounds.{bus, lead, trail, die};

/// The bus bound: what is left takes the bus one phase after another.
pub fn bus_is_below()
    ensures schedules { (p : Problem) (s : Schedule) → IsProblem p → Legal p s → bus p ≤ finish p s }
    ensures runs { (p : Problem) (steps : List Step) (f : ℕ) → IsProblem p → Run p steps f → bus p ≤ f }
    ensures small { (p : Problem) → InLimits p → bus p < 2 ^ 62 }
{}

/// The lead bound: all posts come after the first one.
pub fn lead_is_below()
    ensures schedules { (p : Problem) (s : Schedule) → IsProblem p → Legal p s → lead p ≤ finish p s }
    ensures runs { (p : Problem) (steps : List Step) (f : ℕ) → IsProblem p → Run p steps f → lead p ≤ f }
    ensures small { (p : Problem) → InLimits p → lead p < 2 ^ 62 }
{}

/// The trail bound, where there is one: after the last command come its array and a post.
pub fn trail_is_below()
    ensures schedules { (p : Problem) (s : Schedule) (v : ℕ) → IsProblem p → Legal p s → trail p ≡ Some v → v ≤ finish p s }
    ensures runs { (p : Problem) (steps : List Step) (f v : ℕ) → IsProblem p → Run p steps f → trail p ≡ Some v → v ≤ f }
    ensures small { (p : Problem) (v : ℕ) → InLimits p → trail p ≡ Some v → v < 2 ^ 62 }
{}

/// The die bound of a LUN that is there: it does all that is left to it, one group after another.
pub fn die_is_below()
    ensures schedules { (p : Problem) (s : Schedule) (lun : ℕ) → IsProblem p → Legal p s → lun < length p.luns → die p lun ≤ finish p s }
    ensures runs { (p : Problem) (steps : List Step) (f lun : ℕ) → IsProblem p → Run p steps f → lun < length p.luns → die p lun ≤ f }
    ensures small { (p : Problem) (lun : ℕ) → InLimits p → lun < length p.luns → die p lun < 2 ^ 62 }
{}
