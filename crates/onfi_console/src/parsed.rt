//! What a command line asks for.
ghost use Rattle.std.specs.Prelude.{◌≡◌, ◌≤◌};
ghost use Rattle.onfi_console.specs.Readers as spec;
ghost use Rattle.onfi_console.specs.Words.{IsInRange};

use onfi_planners::By;
use onfi_script::{AuditOptions, Command, GapOptions, Output};

/// A command of the program.
#[derive(Clone, Copy, Debug, PartialEq, Eq)]
pub enum CommandName {
    /// The problem of a script is planned.
    Plan,
    /// A plan of it is checked.
    Check,
    /// The operations of a script are run.
    Run,
    /// The parameter page of a script is described.
    Device,
    /// A log that begins as a script says is judged.
    Audit,
}

impl CommandName {
    /// Its word.
    pub fn word(self) -> &'static str
        ensures { result.now ≡ spec.word_of self }
    {
        match self {
            CommandName::Plan => "plan",
            CommandName::Check => "check",
            CommandName::Run => "run",
            CommandName::Device => "device",
            CommandName::Audit => "audit",
        }
    }
}

/// What gives the buses of a run their phases.
#[derive(Clone, Copy, Debug, PartialEq, Eq)]
pub enum RunBy {
    /// Plans of batches, each made so.
    Plans(By),
    /// The next phase alone, step by step: nothing is planned.
    Next,
}

/// How the operations of a script are run.
#[derive(Clone, Copy, Debug, PartialEq, Eq)]
pub struct RunOptions {
    pub by: RunBy,
    /// Whether each plan is made better, so that requests end early by their age; never by the next phase.
    pub early: bool,
    /// How many nodes the search for a plan opens at most, 1 to 1,048,576; the greatest limit where nothing is searched.
    pub limit: u32,
    /// Whether one simulated clock drives the run, and not threads.
    pub clocked: bool,
}

/// What a command line names.
#[derive(Clone, Copy)]
pub enum Named {
    /// The problem of a script is planned, or a plan of it checked, by that many workers, 1 to 8; one where none are
    /// named.
    Problem { command: Command, workers: usize },
    /// The operations of a script are run.
    Run { options: RunOptions },
    /// The parameter page of a script is described.
    Device,
    /// A log that begins as a script says is judged.
    Audit { options: AuditOptions },
    /// A log that begins as a script says is judged, and measured where it is legal.
    Gaps { options: GapOptions },
}

/// What a command line asks for.
#[derive(Clone, Copy)]
pub struct Parsed<'a> {
    pub named: Named,
    /// The file of the script, `-` for standard input; standard input where none is named.
    pub script: Option<&'a str>,
    /// The file of a plan text or a log that comes after the script, `-` for standard input; none where the script's own
    /// file holds it.
    pub plan: Option<&'a str>,
    /// The file that takes the phases of a run, a line each; none where none is named, and for all but `run`.
    pub trace_file: Option<&'a str>,
    /// Whether nothing is to be said beside the answer.
    pub quiet: bool,
}

/// The greatest limit of a search.
pub const MOST: u32 = 1_048_576;

impl Parsed<'_> {
    /// The command that is named.
    pub fn command(&self) -> CommandName
        ensures { result ≡ spec.command_of self.now.named }
    {
        match self.named {
            Named::Problem { command, .. } => command_in(command),
            Named::Run { .. } => CommandName::Run,
            Named::Device => CommandName::Device,
            Named::Audit { .. } | Named::Gaps { .. } => CommandName::Audit,
        }
    }

    /// How many nodes a search may open, 1 to 1,048,576; the greatest limit where nothing is searched.
    pub fn limit(&self) -> u32
        ensures named { result ≡ spec.limit_of self.now.named }
        ensures range { IsInRange self.now.named → (1 ≤ result) × (result ≤ 1048576) }
    {
        match self.named {
            Named::Problem { command, .. } => limit_in(command),
            Named::Run { options } => options.limit,
            Named::Device | Named::Audit { .. } => MOST,
            Named::Gaps { options } => options.limit.get(),
        }
    }

    /// Whether a trace is printed in place of a plan.
    pub fn trace(&self) -> bool
        ensures { result ≡ spec.trace_of self.now.named }
    {
        match self.named {
            Named::Problem { command, .. } => trace_in(command),
            Named::Run { .. } | Named::Device => false,
            Named::Audit { .. } | Named::Gaps { .. } => false,
        }
    }

    /// How many workers search, 1 to 8.
    pub fn workers(&self) -> usize
        ensures named { result ≡ spec.workers_of self.now.named }
        ensures range { IsInRange self.now.named → (1 ≤ result) × (result ≤ 8) }
    {
        match self.named {
            Named::Problem { workers, .. } => workers,
            Named::Run { .. } | Named::Device => 1,
            Named::Audit { .. } | Named::Gaps { .. } => 1,
        }
    }
}

/// Which of the commands carries it out.
fn command_in(command: Command) -> CommandName
    ensures { result ≡ spec.command_in command }
{
    match command {
        Command::Plan { .. } | Command::PlanBy(_) => CommandName::Plan,
        Command::Check | Command::CheckWithin | Command::Legal => CommandName::Check,
    }
}

/// How many nodes a search may open; the greatest limit where nothing is searched.
fn limit_in(command: Command) -> u32
    ensures { result ≡ spec.limit_in command }
{
    match command {
        Command::Plan { limit, .. } => limit,
        Command::PlanBy(options) => options.limit,
        Command::Check | Command::CheckWithin | Command::Legal => MOST,
    }
}

/// Whether a trace is printed in place of a plan.
fn trace_in(command: Command) -> bool
    ensures { result ≡ spec.trace_in command }
{
    match command {
        Command::Plan { trace, .. } => trace,
        Command::PlanBy(options) => matches!(options.output, Output::Trace { .. }),
        Command::Check | Command::CheckWithin | Command::Legal => false,
    }
}
