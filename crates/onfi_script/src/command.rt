ghost use Rattle.std.specs.Prelude.{◌≡◌};
ghost use Rattle.onfi_script.specs.Answer.{options_of};

use onfi_planners::By;

/// What is printed of a plan.
#[derive(Clone, Copy)]
pub enum Output {
    /// The plan, with its certificate.
    Plan,
    /// Its trace; each line names its request where `requests` says so.
    Trace { requests: bool },
}

/// How a problem is planned, and what is printed of the plan.
#[derive(Clone, Copy)]
pub struct PlanOptions {
    /// How the plan is found; the plain search has as many workers as there are, and the rule searches nothing.
    pub by: By,
    /// Whether it is made better: requests end sooner by the weights of the script, and nothing ends later.
    pub early: bool,
    /// How many nodes a search opens at most, 1 to 1,048,576; the rule opens none.
    pub limit: u32,
    pub output: Output,
}

impl PlanOptions {
    /// A plan by a way as it is.
    pub fn new(by: By, limit: u32, output: Output) -> PlanOptions
        ensures { result ≡ options_of by limit output }
    {
        PlanOptions {
            by,
            early: false,
            limit,
            output,
        }
    }
}

/// What the program is asked to do with a script.
#[derive(Clone, Copy)]
pub enum Command {
    /// Print an optimal schedule with its certificate, or in their place its trace where `trace` says so; the search opens
    /// at most `limit` nodes, 1 to 1,048,576.
    Plan { limit: u32, trace: bool },
    /// Say whether the plan text after the script shows by its certificate that its schedule is optimal.
    Check,
    /// Print a plan by these options.
    PlanBy(PlanOptions),
    /// As `Check`, of a plan text whose certificate remembers states, as plans within a limit and by the rule have them. A line
    /// `below` may say before which time nothing ends; then the schedule need not be optimal.
    CheckWithin,
    /// Say whether the schedule of the plan text after the script is legal, and when it ends. A certificate need not
    /// stand there, and isn't looked at; nor is the number after `finish`, nor that of a line `below`.
    Legal,
}
