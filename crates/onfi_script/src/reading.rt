//! What an input says.
ghost use Rattle.std.specs.Prelude.{◌≡◌, IfOk, MatchResult, Ok, Err};
ghost use Rattle.onfi_script.specs.declared.fault.ScriptFault.TheVariants as of;
ghost use Rattle.onfi_script.specs.declared.fault.Stop.TheVariants.{Refused};
ghost use Rattle.onfi_script.specs.Answer.{IsWeighed, TellsProblem, TellsScript, TellsSetup, whole};
ghost use Rattle.onfi_script.specs.Input.{TellsRows};
ghost use Rattle.onfi_script.specs.SetupOf.{problem_of};
ghost use Rattle.onfi_script.specs.Stop.{IfRefused, Tells};

use crate::fault::{RowStop, ScriptFault, Stop};
use crate::forms::device_of;
use crate::purpose::Purpose;
use crate::row::Row;
use crate::rows::rows;
use crate::script::script_len;
use crate::sectors::asks_amiss;
use crate::setup::{Setup, find_beyond, set_up};
use crate::weights::weights;
use onfi_planners::Weights;
use onfi_problem::{Problem, ProblemFault};
use onfi_timing::read_records;
use std::alloc::Global;

/// What a script says, once it was read.
#[derive(Drop)]
pub struct Script {
    pub problem: Problem,
    /// How much each of its wants counts.
    pub weights: Weights,
}

/// The rows of an input, each in order by itself.
///
/// # Errors
/// `NoEnd` where no line `end` closes the script, else the first row that is refused; and where memory was refused.
pub fn read_rows(alloc: Global, purpose: Purpose, input: &[u8]) -> Result<Vec<Row>, Stop>
    ensures { MatchResult result (λ v. TellsRows purpose input.now (Ok v.items)) (λ stop. IfRefused stop (λ refusal. TellsRows purpose input.now (Err refusal))) }
{
    let Some(size) = script_len(input) else {
        return Err(RowStop::Fault(ScriptFault::NoEnd).at(0));
    };
    let Ok(found) = read_records(alloc, &input[..size]) else {
        return Err(Stop::Memory);
    };
    rows(alloc, purpose, found.as_slice())
}

/// What was set up is refused.
pub(crate) fn refuse_setup(fault: ProblemFault) -> Stop
    ensures { result ≡ Refused (whole (of.Problem fault)) }
{
    RowStop::Fault(ScriptFault::Problem(fault)).at(0)
}

/// The problem of what was set up.
pub(crate) fn make_problem(alloc: Global, rows: &[Row], setup: &Setup) -> Result<Problem, Stop>
    ensures told { Tells IfRefused (λ p. p.problem) result (TellsProblem rows.now (problem_of setup.now)) }
    ensures begun { IfOk result (λ p. p.all ≡ p.problem.wants) }
{
    let made = Problem::new(
        alloc,
        setup.timing,
        setup.rules,
        setup.bus_free,
        setup.luns.as_slice(),
        setup.wants.as_slice(),
    );
    let is_amiss = asks_amiss(rows, setup.wants.as_slice());
    match made {
        Ok(_) | Err(ProblemFault::Clock) if is_amiss => Err(refuse_setup(ProblemFault::NoLengths)),
        Ok(problem) => {
            problem.in_limits();
            Ok(problem)
        }
        Err(ProblemFault::TooMany) => Err(refuse_setup(ProblemFault::TooMany)),
        Err(ProblemFault::BadLun) => Err(refuse_setup(ProblemFault::BadLun)),
        Err(ProblemFault::NoLengths) => Err(refuse_setup(ProblemFault::NoLengths)),
        Err(ProblemFault::Clock) => Err(refuse_setup(ProblemFault::Clock)),
        Err(ProblemFault::Memory) => Err(Stop::Memory),
    }
}

/// The problem that rows, each in order, set up.
fn problem_in(alloc: Global, rows: &[Row]) -> Result<Problem, Stop>
    ensures told { Tells IfRefused (λ p. p.problem) result (TellsSetup rows.now) }
    ensures begun { IfOk result (λ p. p.all ≡ p.problem.wants) }
{
    let device = match device_of(alloc, rows) {
        Ok(device) => device,
        Err(stop) => return Err(stop.at(0)),
    };
    if let Some(at) = find_beyond(rows, &device) {
        return Err(RowStop::Fault(ScriptFault::OutOfRange).at(at as u64 + 1));
    }
    let Ok(setup) = set_up(alloc, rows, &device) else {
        return Err(Stop::Memory);
    };
    make_problem(alloc, rows, &setup)
}

/// What the script of an input says.
///
/// # Errors
/// The first refusal of the script; and where memory was refused.
pub fn read_script(alloc: Global, input: &[u8]) -> Result<Script, Stop>
    ensures told { Tells IfRefused (λ s. s.problem.problem) result (TellsScript input.now) }
    ensures begun { IfOk result (λ s. s.problem.all ≡ s.problem.problem.wants) }
    ensures weighed { IfOk result (λ s. IsWeighed input.now s.weights) }
{
    let rows = read_rows(alloc, Purpose::Problem, input)?;
    let problem = problem_in(alloc, rows.as_slice())?;
    let weights = weights(rows.as_slice());
    Ok(Script { problem, weights })
}
