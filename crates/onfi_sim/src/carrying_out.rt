//! What a command line names is carried out.
ghost use Rattle.std.specs.Prelude.{◌≡◌, ◌≤◌, ℕ, IfOk, IfErr, Some, option_map, take};
ghost use Rattle.std.specs.Io.KnownBytes.{Appends, Keeps};
ghost use Rattle.onfi_script.specs.AnswerOf.{answer_of, told_of};
ghost use Rattle.onfi_script.specs.Limit.{IsLimited};
ghost use Rattle.onfi_script.specs.Text.{memory};
ghost use Rattle.onfi_console.specs.declared.parsed.Named.{Named as ANamed};
ghost use Rattle.onfi_console.specs.Words.{IsInRange};
ghost use Rattle.onfi_run.specs.Ending.{nodes_by};
ghost use Rattle.onfi_sim.specs.Carrying as spec;
ghost use Rattle.onfi_sim.specs.Carrying.{AnswersNamed, BeginsToCarryOut, CarriesOut};

use onfi_console::{Command, EngineFault, Named, RunBy, RunOptions, describe};
use onfi_planners::{ChosenPlanner, Early};
use onfi_run::{Limit, Traced, Way, no_gates, run_freely, run_script_by};
use onfi_script::{
    Answer, AuditOptions, GapOptions, InputFault, audit_by, audit_gaps, engine, engine_split,
    engine_split_by, read_all, write_with_status,
};
use std::alloc::{AllocError, Global};
use std::io::{Read, Write};
use std::sync::Wait;
use std::thread::Threads;

/// Writes an answer, or that memory was refused.
fn write_answer<W: Write>(
    writer: &mut W,
    answered: Result<Answer, AllocError>,
) -> Result<u8, EngineFault>
    ensures whole { IfOk result (λ s. (s ≡ (told_of answered).status) × Appends (W.contents writer.old) (W.contents writer.new) (told_of answered).text) }
    ensures part { IfErr result (λ e. (e ≡ EngineFault.Write) × (n : ℕ) × Appends (W.contents writer.old) (W.contents writer.new) (take n (told_of answered).text)) }
{
    match answered {
        Ok(answer) => write_with_status(writer, answer.text.as_slice(), answer.status),
        Err(AllocError) => write_with_status(writer, b"memory\n", 4),
    }
}

/// Plans the problem of a script by that many workers, more than one; no other command has several.
fn carry_out_by_workers<T: Threads + Sync, I: Read, W: Write>(
    rt: &T,
    alloc: Global,
    command: Command,
    workers: usize,
    reader: &mut I,
    writer: &mut W,
) -> Result<u8, EngineFault>
    requires limit { IsLimited command }
    requires several { 2 ≤ workers }
    requires few { workers ≤ 8 }
    ensures answer { IfOk result (λ status. CarriesOut (ANamed.Problem command workers) (I.remaining reader.old) (W.contents writer.old) (W.contents writer.new) status) }
    ensures unread { result ≡ Err EngineFault.Read → Keeps (W.contents writer.old) (W.contents writer.new) }
    ensures unwritten { result ≡ Err EngineFault.Write → BeginsToCarryOut (ANamed.Problem command workers) (I.remaining reader.old) (W.contents writer.old) (W.contents writer.new) }
{
    match command {
        Command::Plan { limit, trace } => {
            engine_split(rt, alloc, limit, trace, workers, reader, writer)
        }
        Command::PlanBy(options) => engine_split_by(rt, alloc, options, workers, reader, writer),
        Command::Check => engine(alloc, command, reader, writer),
        Command::CheckWithin => engine(alloc, command, reader, writer),
        Command::Legal => engine(alloc, command, reader, writer),
    }
}

/// Plans the problem of a script, or checks a plan of it.
fn carry_out_problem<T: Threads + Sync, I: Read, W: Write>(
    rt: &T,
    alloc: Global,
    command: Command,
    workers: usize,
    reader: &mut I,
    writer: &mut W,
) -> Result<u8, EngineFault>
    requires limit { IsLimited command }
    requires few { workers ≤ 8 }
    ensures answer { IfOk result (λ status. CarriesOut (ANamed.Problem command workers) (I.remaining reader.old) (W.contents writer.old) (W.contents writer.new) status) }
    ensures unread { result ≡ Err EngineFault.Read → Keeps (W.contents writer.old) (W.contents writer.new) }
    ensures unwritten { result ≡ Err EngineFault.Write → BeginsToCarryOut (ANamed.Problem command workers) (I.remaining reader.old) (W.contents writer.old) (W.contents writer.new) }
{
    if workers <= 1 {
        engine(alloc, command, reader, writer)
    } else {
        carry_out_by_workers(rt, alloc, command, workers, reader, writer)
    }
}

/// How the channels of the run go.
fn way_of(options: RunOptions) -> Way<ChosenPlanner>
    requires { IsInRange (ANamed.Run options) }
    ensures { nodes_by result.choice result.limit ≡ spec.nodes_of options }
{
    let early = if options.early {
        Some(Early::default())
    } else {
        None
    };
    let limit = Limit::of(options.limit).unwrap();
    match options.by {
        RunBy::Next => Way::by_next_phase(ChosenPlanner::default()),
        RunBy::Plans(by) => Way::by_plans(ChosenPlanner { by, early }, limit),
    }
}

/// Runs the operations of a script.
fn carry_out_run<R: Threads + Wait + Sync, I: Read, W: Write>(
    rt: &R,
    alloc: Global,
    options: RunOptions,
    reader: &mut I,
    writer: &mut W,
) -> Result<u8, EngineFault>
    requires { IsInRange (ANamed.Run options) }
    ensures answer { IfOk result (λ status. CarriesOut (ANamed.Run options) (I.remaining reader.old) (W.contents writer.old) (W.contents writer.new) status) }
    ensures unread { result ≡ Err EngineFault.Read → Keeps (W.contents writer.old) (W.contents writer.new) }
    ensures unwritten { result ≡ Err EngineFault.Write → BeginsToCarryOut (ANamed.Run options) (I.remaining reader.old) (W.contents writer.old) (W.contents writer.new) }
{
    let Ok(gates) = no_gates(alloc) else {
        return write_answer(writer, Err(AllocError));
    };
    let way = way_of(options);
    run_script_by(rt, alloc, way, options.clocked, gates, reader, writer)
}

/// What is answered where an input isn't read to its end.
fn write_unread<W: Write>(writer: &mut W, fault: InputFault) -> Result<u8, EngineFault>
    ensures whole { IfOk result (λ s. (s ≡ memory.status) × Appends (W.contents writer.old) (W.contents writer.new) memory.text) }
    ensures unread { result ≡ Err EngineFault.Read → Keeps (W.contents writer.old) (W.contents writer.new) }
    ensures part { result ≡ Err EngineFault.Write → (n : ℕ) × Appends (W.contents writer.old) (W.contents writer.new) (take n memory.text) }
{
    match fault {
        InputFault::Read => Err(EngineFault::Read),
        InputFault::Memory => write_answer(writer, Err(AllocError)),
    }
}

/// Describes the device of a script.
fn carry_out_device<I: Read, W: Write>(
    alloc: Global,
    reader: &mut I,
    writer: &mut W,
) -> Result<u8, EngineFault>
    ensures answer { IfOk result (λ status. CarriesOut ANamed.Device (I.remaining reader.old) (W.contents writer.old) (W.contents writer.new) status) }
    ensures unread { result ≡ Err EngineFault.Read → Keeps (W.contents writer.old) (W.contents writer.new) }
    ensures unwritten { result ≡ Err EngineFault.Write → BeginsToCarryOut ANamed.Device (I.remaining reader.old) (W.contents writer.old) (W.contents writer.new) }
{
    match read_all(alloc, reader) {
        Ok(input) => write_answer(writer, describe(alloc, input.as_slice())),
        Err(fault) => write_unread(writer, fault),
    }
}

/// Judges a log.
fn carry_out_audit<I: Read, W: Write>(
    alloc: Global,
    options: AuditOptions,
    reader: &mut I,
    writer: &mut W,
) -> Result<u8, EngineFault>
    ensures answer { IfOk result (λ status. CarriesOut (ANamed.Audit options) (I.remaining reader.old) (W.contents writer.old) (W.contents writer.new) status) }
    ensures unread { result ≡ Err EngineFault.Read → Keeps (W.contents writer.old) (W.contents writer.new) }
    ensures unwritten { result ≡ Err EngineFault.Write → BeginsToCarryOut (ANamed.Audit options) (I.remaining reader.old) (W.contents writer.old) (W.contents writer.new) }
{
    match read_all(alloc, reader) {
        Ok(input) => write_answer(writer, audit_by(alloc, options, input.as_slice())),
        Err(fault) => write_unread(writer, fault),
    }
}

/// Judges a log, and measures it where it is legal.
fn carry_out_gaps<I: Read, W: Write>(
    alloc: Global,
    options: GapOptions,
    reader: &mut I,
    writer: &mut W,
) -> Result<u8, EngineFault>
    ensures answer { IfOk result (λ status. CarriesOut (ANamed.Gaps options) (I.remaining reader.old) (W.contents writer.old) (W.contents writer.new) status) }
    ensures unread { result ≡ Err EngineFault.Read → Keeps (W.contents writer.old) (W.contents writer.new) }
    ensures unwritten { result ≡ Err EngineFault.Write → BeginsToCarryOut (ANamed.Gaps options) (I.remaining reader.old) (W.contents writer.old) (W.contents writer.new) }
{
    match read_all(alloc, reader) {
        Ok(input) => write_answer(writer, audit_gaps(alloc, options, input.as_slice())),
        Err(fault) => write_unread(writer, fault),
    }
}

/// Carries out what is named on all that a reader has.
fn carry_out_from<R: Threads + Wait + Sync, I: Read, W: Write>(
    rt: &R,
    alloc: Global,
    named: Named,
    reader: &mut I,
    writer: &mut W,
) -> Result<u8, EngineFault>
    requires { IsInRange named }
    ensures answer { IfOk result (λ status. CarriesOut named (I.remaining reader.old) (W.contents writer.old) (W.contents writer.new) status) }
    ensures unread { result ≡ Err EngineFault.Read → Keeps (W.contents writer.old) (W.contents writer.new) }
    ensures unwritten { result ≡ Err EngineFault.Write → BeginsToCarryOut named (I.remaining reader.old) (W.contents writer.old) (W.contents writer.new) }
{
    match named {
        Named::Problem { command, workers } => {
            carry_out_problem(rt, alloc, command, workers, reader, writer)
        }
        Named::Run { options } => carry_out_run(rt, alloc, options, reader, writer),
        Named::Device => carry_out_device(alloc, reader, writer),
        Named::Audit { options } => carry_out_audit(alloc, options, reader, writer),
        Named::Gaps { options } => carry_out_gaps(alloc, options, reader, writer),
    }
}

/// The line end that a script lacks.
fn line_end(script: &[u8]) -> &'static [u8]
    ensures { result.now ≡ spec.line_end script.now }
{
    match script.last() {
        None => b"",
        Some(b'\n') => b"",
        Some(_) => b"\n",
    }
}

/// Carries out what a command line names: writes the answer to a script, and to the plan text or log of a file of its own where
/// there is one, and answers the status of the program. This is the whole of what the program writes to standard output, but
/// for command lines and files that aren't taken.
///
/// A plan text or log begins a line after the script. Statuses are 0 where a problem is planned, a plan accepted, a schedule or
/// log legal, a device described, or each operation of a run has its reply; 1 where the script is refused; 2 where the plan text,
/// its certificate or the log is; 3 where a channel stopped or was left unfinished; 4 where memory was refused; 6 where as many
/// nodes were opened as may be and the search isn't over; 8 where a plan is legal and proved to end within what it says.
///
/// # Errors
/// `Write` where a write failed: a beginning of the answer was written. `Read` where the input isn't read to its end in 2^40
/// reads: nothing was written.
pub fn carry_out<R: Threads + Wait + Sync, W: Write>(
    rt: &R,
    alloc: Global,
    named: Named,
    script: &[u8],
    text: Option<&[u8]>,
    writer: &mut W,
) -> Result<u8, EngineFault>
    requires { IsInRange named }
    ensures answer { IfOk result (λ status. CarriesOut named (Some (spec.joined script.now (option_map (λ t. t.now) text.entry))) (W.contents writer.old) (W.contents writer.new) status) }
    ensures unread { result ≡ Err EngineFault.Read → Keeps (W.contents writer.old) (W.contents writer.new) }
    ensures unwritten { result ≡ Err EngineFault.Write → BeginsToCarryOut named (Some (spec.joined script.now (option_map (λ t. t.now) text.entry))) (W.contents writer.old) (W.contents writer.new) }
{
    match text {
        None => {
            let mut alone = script;
            carry_out_from(rt, alloc, named, &mut alone, writer)
        }
        Some(text) => {
            let mut whole = script.chain(line_end(script).chain(text));
            carry_out_from(rt, alloc, named, &mut whole, writer)
        }
    }
}

/// Runs the operations of a script, and gives the answer with the trace of each channel: what `run --trace` asks for.
///
/// # Errors
/// Where memory was refused.
pub fn run_traced<R: Threads + Wait + Sync>(
    rt: &R,
    alloc: Global,
    options: RunOptions,
    script: &[u8],
) -> Result<Traced, AllocError>
    requires { IsInRange (ANamed.Run options) }
    ensures answer { IfOk result (λ t. AnswersNamed (ANamed.Run options) script.now (answer_of t.answer)) }
{
    let way = way_of(options).with_traces();
    run_freely(rt, alloc, way, options.clocked, script)
}
