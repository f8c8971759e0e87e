//! From the bytes of an input to the bytes of its answer.
ghost use Rattle.std.specs.Prelude.{◌≡◌, ◌≤◌, ◌<◌, ℕ, IfOk, IfErr, take};
ghost use Rattle.std.specs.Io.KnownBytes.{Appends, Keeps};
ghost use Rattle.onfi_script.specs.Answer.{AnswersCommand, AnswersPlan, IsAnswer, IsAnswerBy, Answers, AnswersBy, BeginsAnswer, BeginsAnswerBy, OneTells, PartsTell, output_of};
ghost use Rattle.onfi_script.specs.AnswerOf.{answer_of, told_of};
ghost use Rattle.onfi_script.specs.Limit.{IsLimit, IsLimited};

use crate::alone::judge_alone;
use crate::checking::{check_optimal, check_within};
use crate::command::{Command, Output, PlanOptions};
use crate::fault::Stop;
use crate::planning::{plan_by, plan_by_workers, print_plan};
use crate::reading::{Script, read_script};
use crate::script::plan_text_of;
use crate::text::{Answer, answer_refusal, report_over};
use crate::transfer::{EngineFault, InputFault, read_all, write_with_status};
use onfi_plan::PlanFault;
use onfi_planners::By;
use std::alloc::{AllocError, Global};
use std::io::{Read, Write};
use std::thread::Threads;

/// The answer that plans a problem.
fn plan_script(alloc: Global, options: PlanOptions, script: &Script) -> Result<Answer, AllocError>
    requires limit { IsLimit options.limit }
    requires begun { script.now.problem.all ≡ script.now.problem.problem.wants }
    ensures { IfOk result (λ a. AnswersPlan OneTells options script.now.weights script.now.problem.problem (answer_of a)) }
{
    let problem = &script.problem;
    match plan_by(alloc, problem, &script.weights, options) {
        Ok(plan) => print_plan(alloc, problem, plan, options.output),
        Err(PlanFault::Over { opened }) => report_over(alloc, opened),
        Err(PlanFault::Memory) => Err(AllocError),
    }
}

/// The answer that plans a problem, where the plain search has that many workers.
fn answer_plan_by_workers<T: Threads + Sync>(
    rt: &T,
    alloc: Global,
    options: PlanOptions,
    workers: usize,
    script: &Script,
) -> Result<Answer, AllocError>
    requires limit { IsLimit options.limit }
    requires some_workers { 1 ≤ workers }
    requires few_workers { workers ≤ 8 }
    requires begun { script.now.problem.all ≡ script.now.problem.problem.wants }
    ensures { IfOk result (λ a. AnswersPlan PartsTell options script.now.weights script.now.problem.problem (answer_of a)) }
{
    let problem = &script.problem;
    match plan_by_workers(rt, alloc, problem, &script.weights, options, workers) {
        Ok(best) => print_plan(alloc, problem, best, options.output),
        Err(PlanFault::Over { opened: parts }) => report_over(alloc, parts),
        Err(PlanFault::Memory) => Err(AllocError),
    }
}

/// The trace where it is asked for, else the plan.
fn output_of(trace: bool) -> Output
    ensures { result ≡ output_of trace }
{
    if trace {
        Output::Trace { requests: false }
    } else {
        Output::Plan
    }
}

/// What the command asks for; `text` comes after the script.
fn answer_command(
    alloc: Global,
    command: Command,
    text: &[u8],
    script: &Script,
) -> Result<Answer, AllocError>
    requires limit { IsLimited command }
    requires begun { script.now.problem.all ≡ script.now.problem.problem.wants }
    ensures { IfOk result (λ a. AnswersCommand OneTells command script.now.weights text.now script.now.problem.problem (answer_of a)) }
{
    let problem = &script.problem;
    match command {
        Command::Plan { limit, trace } => {
            let options = PlanOptions::new(By::Plain, limit, output_of(trace));
            plan_script(alloc, options, script)
        }
        Command::Check => check_optimal(alloc, problem, text),
        Command::PlanBy(options) => plan_script(alloc, options, script),
        Command::CheckWithin => check_within(alloc, problem, text),
        Command::Legal => judge_alone(alloc, problem, text),
    }
}

/// The answer to an input.
fn answer(alloc: Global, command: Command, input: &[u8]) -> Result<Answer, AllocError>
    requires limit { IsLimited command }
    ensures { IfOk result (λ a. IsAnswerBy OneTells command input.now (answer_of a)) }
{
    match read_script(alloc, input) {
        Ok(script) => answer_command(alloc, command, plan_text_of(input), &script),
        Err(Stop::Refused(refusal)) => answer_refusal(alloc, refusal),
        Err(Stop::Memory) => Err(AllocError),
    }
}

/// The answer to an input that is planned by that many workers.
fn answer_by_workers<T: Threads + Sync>(
    rt: &T,
    alloc: Global,
    options: PlanOptions,
    workers: usize,
    input: &[u8],
) -> Result<Answer, AllocError>
    requires limit { IsLimit options.limit }
    requires some_workers { 1 ≤ workers }
    requires few_workers { workers ≤ 8 }
    ensures { IfOk result (λ a. IsAnswerBy PartsTell (Command.PlanBy options) input.now (answer_of a)) }
{
    match read_script(alloc, input) {
        Ok(script) => answer_plan_by_workers(rt, alloc, options, workers, &script),
        Err(Stop::Refused(refusal)) => answer_refusal(alloc, refusal),
        Err(Stop::Memory) => Err(AllocError),
    }
}

/// Writes an answer, or that memory was refused.
fn write_answer<W: Write>(
    writer: &mut W,
    answered: Result<Answer, AllocError>,
) -> Result<u8, EngineFault>
    ensures whole { IfOk result (λ s. (s ≡ (told_of answered).status) × Appends (W.contents writer.old) (W.contents writer.new) (told_of answered).text) }
    ensures part { IfErr result (λ e. (e ≡ EngineFault.Write) × (n : ℕ) × Appends (W.contents writer.old) (W.contents writer.new) (take n (told_of answered).text)) }
{
    match answered {
        Ok(answer) => write_with_status(writer, answer.text.as_slice(), answer.status),
        Err(AllocError) => write_with_status(writer, b"memory\n", 4),
    }
}

/// Reads all that there is, and writes the answer to it and nothing else.
///
/// Answers the exit status of the program: 0 for a plan and for a schedule that is accepted or legal, 1 where the script is
/// refused, 2 where the plan text or its certificate is, 4 where memory was refused, 6 where as many nodes were opened as may
/// be and the search is not over.
///
/// # Errors
/// `Read` where a read failed or 2^40 reads did not come to the end: nothing was written. `Write` where a write
/// failed: a beginning of the answer was written.
pub fn engine<R: Read, W: Write>(
    alloc: Global,
    command: Command,
    reader: &mut R,
    writer: &mut W,
) -> Result<u8, EngineFault>
    requires limit { IsLimited command }
    ensures answer { IfOk result (λ status. Answers command (R.remaining reader.old) (W.contents writer.old) (W.contents writer.new) status) }
    ensures unread { result ≡ Err EngineFault.Read → Keeps (W.contents writer.old) (W.contents writer.new) }
    ensures unwritten { result ≡ Err EngineFault.Write → BeginsAnswer command (R.remaining reader.old) (W.contents writer.old) (W.contents writer.new) }
{
    match read_all(alloc, reader) {
        Ok(input) => write_answer(writer, answer(alloc, command, input.as_slice())),
        Err(InputFault::Read) => Err(EngineFault::Read),
        Err(InputFault::Memory) => write_answer(writer, Err(AllocError)),
    }
}

/// What [`engine`] does for `Plan`, with the search of [`plan_split`](onfi_planner::plan_split) by that many workers, 1 to
/// 8, and `limit` nodes, 1 to 1,048,576, for each part: the same text for any number of workers.
///
/// Answers the status that `engine` does: 6 where a part has more nodes than the limit, or the parts together have more
/// than 1,048,575.
///
/// # Errors
/// As `engine`.
pub fn engine_split<T: Threads + Sync, R: Read, W: Write>(
    rt: &T,
    alloc: Global,
    limit: u32,
    trace: bool,
    workers: usize,
    reader: &mut R,
    writer: &mut W,
) -> Result<u8, EngineFault>
    requires some { 1 ≤ limit }
    requires few { limit ≤ 1048576 }
    requires some_workers { 1 ≤ workers }
    requires few_workers { workers ≤ 8 }
    ensures answer { IfOk result (λ status. AnswersBy PartsTell (Command.Plan limit trace) (R.remaining reader.old) (W.contents writer.old) (W.contents writer.new) status) }
    ensures unread { result ≡ Err EngineFault.Read → Keeps (W.contents writer.old) (W.contents writer.new) }
    ensures unwritten { result ≡ Err EngineFault.Write → BeginsAnswerBy PartsTell (Command.Plan limit trace) (R.remaining reader.old) (W.contents writer.old) (W.contents writer.new) }
{
    let options = PlanOptions::new(By::Plain, limit, output_of(trace));
    engine_split_by(rt, alloc, options, workers, reader, writer)
}

/// What [`engine`] does for `PlanBy`, where the plain search is that of [`engine_split`].
///
/// # Errors
/// As `engine`.
pub fn engine_split_by<T: Threads + Sync, R: Read, W: Write>(
    rt: &T,
    alloc: Global,
    options: PlanOptions,
    workers: usize,
    reader: &mut R,
    writer: &mut W,
) -> Result<u8, EngineFault>
    requires limit { IsLimit options.limit }
    requires some_workers { 1 ≤ workers }
    requires few_workers { workers ≤ 8 }
    ensures answer { IfOk result (λ status. AnswersBy PartsTell (Command.PlanBy options) (R.remaining reader.old) (W.contents writer.old) (W.contents writer.new) status) }
    ensures unread { result ≡ Err EngineFault.Read → Keeps (W.contents writer.old) (W.contents writer.new) }
    ensures unwritten { result ≡ Err EngineFault.Write → BeginsAnswerBy PartsTell (Command.PlanBy options) (R.remaining reader.old) (W.contents writer.old) (W.contents writer.new) }
{
    match read_all(alloc, reader) {
        Ok(input) => {
            let answered = answer_by_workers(rt, alloc, options, workers, input.as_slice());
            write_answer(writer, answered)
        }
        Err(InputFault::Read) => Err(EngineFault::Read),
        Err(InputFault::Memory) => write_answer(writer, Err(AllocError)),
    }
}

/// The answer to an input, with why it refuses: what [`engine`] writes with one worker, and what [`engine_split`] and
/// [`engine_split_by`] write with several, 1 to 8.
///
/// # Errors
/// Where memory was refused.
pub fn answer_by<T: Threads + Sync>(
    rt: &T,
    alloc: Global,
    command: Command,
    workers: usize,
    input: &[u8],
) -> Result<Answer, AllocError>
    requires limit { IsLimited command }
    requires few_workers { workers ≤ 8 }
    ensures one { workers ≤ 1 → IfOk result (λ a. IsAnswer command input.now (answer_of a)) }
    ensures several { 1 < workers → IfOk result (λ a. IsAnswerBy PartsTell command input.now (answer_of a)) }
{
    if workers <= 1 {
        return answer(alloc, command, input);
    }
    match command {
        Command::Plan { limit, trace } => {
            let options = PlanOptions::new(By::Plain, limit, output_of(trace));
            answer_by_workers(rt, alloc, options, workers, input)
        }
        Command::PlanBy(options) => answer_by_workers(rt, alloc, options, workers, input),
        Command::Check => answer(alloc, command, input),
        Command::CheckWithin => answer(alloc, command, input),
        Command::Legal => answer(alloc, command, input),
    }
}
