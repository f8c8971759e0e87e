//! Logs of a channel are judged.
ghost use Rattle.std.specs.Prelude.{◌≡◌, [], ◌∷◌, IfOk, MatchResult, Ok, Err};
ghost use Rattle.onfi_audit.specs.Audit.{opening};
ghost use Rattle.onfi_script.specs.Answer.{TellsProblem};
ghost use Rattle.onfi_script.specs.AnswerOf.{answer_of};
ghost use Rattle.onfi_script.specs.Auditing as spec;
ghost use Rattle.onfi_script.specs.Gaps.{AnswersGaps, AnswersMeasured};
ghost use Rattle.onfi_script.specs.SetupOf.{problem_of};
ghost use Rattle.onfi_script.specs.Stop.{IfRefused};

use crate::fault::{RowStop, ScriptFault, Stop};
use crate::forms::device_of;
use crate::purpose::Purpose;
use crate::reading::{make_problem, read_rows, refuse_setup};
use crate::row::Row;
use crate::script::plan_text_of;
use crate::sectors::asks_amiss;
use crate::setup::{Setup, find_beyond, set_up};
use crate::text::{Answer, answer_refusal};
use arrayvec::ArrayVec;
use onfi_audit::{AcceptFault, Audit};
use onfi_flight::Flight;
use onfi_gap::{find_gaps, write_gaps};
use onfi_log::{Manner, Readies, Requests, Statuses, judge_log_by};
use onfi_plan::Limit;
use onfi_problem::{Problem, ProblemFault};
use onfi_request::Want;
use onfi_schedule::{Schedule, no_starts};
use std::alloc::{AllocError, Global};

/// The channel of a problem, of which nothing waits yet.
fn open_audit(alloc: Global, problem: &Problem) -> Audit
    ensures { result ≡ opening problem.now.problem }
{
    let none = Schedule::new(no_starts(problem.luns().len()), ArrayVec::new_in(alloc));
    Audit::of(alloc, &Flight::of(problem, &none))
}

/// Accepts what a want asks for.
fn accept(audit: &mut Audit, want: &Want) -> Result<(), Stop>
    ensures { MatchResult result (λ _. spec.AcceptsAll (want.now ∷ []) audit.old (Ok audit.new)) (λ stop. IfRefused stop (λ refusal. spec.AcceptsAll (want.now ∷ []) audit.old (Err refusal))) }
{
    match audit.accept(want.kind, want.lun, want.block, want.page) {
        Ok(_) => Ok(()),
        Err(AcceptFault::NoLun | AcceptFault::ErasePage) => {
            Err(refuse_setup(ProblemFault::BadLun))
        }
        Err(AcceptFault::NoLengths) => Err(refuse_setup(ProblemFault::NoLengths)),
        Err(AcceptFault::Full | AcceptFault::Memory) => Err(Stop::Memory),
    }
}

/// Accepts what wants ask for, one after another.
fn accept_all(audit: &mut Audit, wants: &[Want]) -> Result<(), Stop>
    ensures { MatchResult result (λ _. spec.AcceptsAll wants.now audit.old (Ok audit.new)) (λ stop. IfRefused stop (λ refusal. spec.AcceptsAll wants.now audit.old (Err refusal))) }
{
    for want in wants {
        accept(audit, want)?;
    }
    Ok(())
}

/// Which requests the log of a script with these is of.
fn requests_of(wants: &[Want]) -> Requests
    ensures { result ≡ spec.requests_of wants.now }
{
    if wants.is_empty() {
        Requests::Mentioned
    } else {
        Requests::Accepted
    }
}

/// What a log begins with: the channel, and the requests of its script.
fn begin_audit(alloc: Global, rows: &[Row], setup: Setup) -> Result<(Audit, Requests), Stop>
    ensures { MatchResult result (λ b. spec.TellsBegun rows.now (problem_of setup) (Ok b.0) × (b.1 ≡ spec.requests_of setup.wants.items)) (λ stop. IfRefused stop (λ refusal. spec.TellsBegun rows.now (problem_of setup) (Err refusal))) }
{
    let wants = setup.wants;
    let bare = Setup {
        timing: setup.timing,
        rules: setup.rules,
        bus_free: setup.bus_free,
        luns: setup.luns,
        wants: Vec::new(alloc),
    };
    let problem = make_problem(alloc, rows, &bare)?;
    let mut audit = open_audit(alloc, &problem);
    accept_all(&mut audit, wants.as_slice())?;
    if asks_amiss(rows, wants.as_slice()) {
        return Err(refuse_setup(ProblemFault::NoLengths));
    }
    Ok((audit, requests_of(wants.as_slice())))
}

/// .. by the rows of a script, each in order.
fn begin_audit_by(alloc: Global, rows: &[Row]) -> Result<(Audit, Requests), Stop>
    ensures { MatchResult result (λ b. spec.TellsOpening rows.now (Ok b)) (λ stop. IfRefused stop (λ refusal. spec.TellsOpening rows.now (Err refusal))) }
{
    let device = match device_of(alloc, rows) {
        Ok(device) => device,
        Err(stop) => return Err(stop.at(0)),
    };
    if let Some(at) = find_beyond(rows, &device) {
        return Err(RowStop::Fault(ScriptFault::OutOfRange).at(at as u64 + 1));
    }
    let Ok(setup) = set_up(alloc, rows, &device) else {
        return Err(Stop::Memory);
    };
    begin_audit(alloc, rows, setup)
}

/// .. by an input.
fn read_begun(alloc: Global, input: &[u8]) -> Result<(Audit, Requests), Stop>
    ensures { MatchResult result (λ b. spec.TellsLog input.now (Ok b)) (λ stop. IfRefused stop (λ refusal. spec.TellsLog input.now (Err refusal))) }
{
    let rows = read_rows(alloc, Purpose::Problem, input)?;
    begin_audit_by(alloc, rows.as_slice())
}

/// From when on LUNs are ready.
fn readies_of(by_status: bool) -> Readies
    ensures { result ≡ spec.readies_of by_status }
{
    if by_status {
        Readies::Reported
    } else {
        Readies::Stated
    }
}

/// Which statuses a log has of a group.
fn statuses_of(one_status: bool) -> Statuses
    ensures { result ≡ spec.statuses_of one_status }
{
    if one_status {
        Statuses::OneForAll
    } else {
        Statuses::EachPlane
    }
}

/// How a log is judged.
#[derive(Clone, Copy, Debug, PartialEq, Eq)]
pub struct AuditOptions {
    /// Whether each condition that it breaks is given, and not the first alone.
    pub all: bool,
    /// Whether LUNs are ready too from when lines `START LUN ready` or `START LUN edge` say that they were.
    pub by_status: bool,
    /// A phase may come that much too soon, in ns.
    pub tolerance: u64,
    /// Whether a group of programs or erases has one status, and not one of each plane.
    pub one_status: bool,
}

impl AuditOptions {
    /// How the lines of a log are taken.
    fn manner(self) -> Manner
        ensures { result ≡ spec.manner_of self }
    {
        Manner {
            readies: readies_of(self.by_status),
            tolerance: self.tolerance,
            statuses: statuses_of(self.one_status),
        }
    }
}

/// The answer to an input whose text after the script is a log: the first condition that it breaks, or each where `all` says so,
/// or that it is legal.
///
/// # Errors
/// Where memory was refused.
pub fn audit(alloc: Global, all: bool, input: &[u8]) -> Result<Answer, AllocError>
    ensures { IfOk result (λ a. spec.AnswersAudit all input.now (answer_of a)) }
{
    let options = AuditOptions {
        all,
        by_status: false,
        tolerance: 0,
        one_status: false,
    };
    audit_by(alloc, options, input)
}

/// .. by options.
///
/// # Errors
/// Where memory was refused.
pub fn audit_by(alloc: Global, options: AuditOptions, input: &[u8]) -> Result<Answer, AllocError>
    ensures { IfOk result (λ a. spec.AnswersAuditBy options input.now (answer_of a)) }
{
    match read_begun(alloc, input) {
        Ok((audit, requests)) => {
            let manner = options.manner();
            let log = plan_text_of(input);
            let answer = judge_log_by(alloc, audit, requests, manner, options.all, log)?;
            Ok(Answer::of(answer.text, answer.status))
        }
        Err(Stop::Refused(refusal)) => answer_refusal(alloc, refusal),
        Err(Stop::Memory) => Err(AllocError),
    }
}

/// How a log is measured.
#[derive(Clone, Copy, Debug, PartialEq, Eq)]
pub struct GapOptions {
    /// Whether of a log that isn't legal each condition that it breaks is given, and not the first alone.
    pub all: bool,
    /// How many nodes the search for a piece's plan opens at most.
    pub limit: Limit,
    /// Whether pieces are given as a table.
    pub csv: bool,
}

/// The answer to a log of that opening, by its pieces.
fn measure_log(
    alloc: Global,
    options: GapOptions,
    audit: Audit,
    requests: Requests,
    log: &[u8],
) -> Result<Answer, AllocError>
    ensures { IfOk result (λ a. AnswersMeasured options audit requests log.now (answer_of a)) }
{
    let gaps = find_gaps(alloc, audit, requests, options.all, options.limit, log)?;
    let written = write_gaps(alloc, options.csv, gaps)?;
    Ok(Answer::of(written.text, written.status))
}

/// The answer to an input whose text after the script is a log: as [`audit`] has it where the log isn't legal; else how far its
/// pieces of at most eight requests are from the best, as [`write_gaps`] writes what [`find_gaps`] finds. Times are in ns.
///
/// # Errors
/// Where memory was refused.
pub fn audit_gaps(alloc: Global, options: GapOptions, input: &[u8]) -> Result<Answer, AllocError>
    ensures { IfOk result (λ a. AnswersGaps options input.now (answer_of a)) }
{
    match read_begun(alloc, input) {
        Ok((audit, requests)) => measure_log(alloc, options, audit, requests, plan_text_of(input)),
        Err(Stop::Refused(refusal)) => answer_refusal(alloc, refusal),
        Err(Stop::Memory) => Err(AllocError),
    }
}
