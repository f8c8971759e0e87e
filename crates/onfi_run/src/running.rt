//! From the bytes of an input to the bytes of its answer.
ghost use Rattle.std.specs.Prelude.{◌≡◌, ◌≤◌, ℕ, Option, Some, length, map, IfOk, IfSome, false};
ghost use Rattle.std.specs.List.{AllByRecursion as Each};
ghost use Rattle.onfi_run.specs.declared.gated.Gated.{Gated as AGated};
ghost use Rattle.onfi_run.specs.declared.simulation.Settled.{Settled as ASettled};
ghost use Rattle.onfi_run.specs.Ending.{IsOverAt, nodes_by};
ghost use Rattle.onfi_run.specs.Opening.{AreBehind, IsWithin, lane_queues};
ghost use Rattle.onfi_run.specs.Pace.{IsLaneWithin};
ghost use Rattle.std.specs.Io.KnownBytes.{Keeps};
ghost use Rattle.onfi_script.specs.AnswerOf.{answer_of};
ghost use Rattle.onfi_run.specs.Prepares.{IsPrepared};
ghost use Rattle.onfi_run.specs.Running.{IsAnswer, Answers, BeginsAnswer, purpose_of as spec_purpose_of};
ghost use Rattle.onfi_run.specs.Keys.{AreLinked, HaveSamePorts, ports_of};
ghost use Rattle.onfi_run.specs.Told.{IsReportOf, Tells};
ghost use Rattle.onfi_record.specs.Recording.{IsTraceText};

use crate::acts::Course;
use crate::channel::Channel;
use crate::finishing::finish_all;
use crate::gated::Gated;
use crate::no_gate::no_gates;
use crate::opening::Stage;
use crate::preparing::{Prepared, prepare_for};
use crate::report::Report;
use crate::simulation::{Settled, buses_of, simulate};
use crate::text::report_answer;
use crate::threads::run_threads;
use crate::traced::Traced;
use crate::way::Way;
use onfi_plan::{Limit, PlainPlanner, Planner};
use onfi_script::{
    EngineFault, InputFault, Purpose, Stop, answer_refusal, read_all, write_with_status,
};
use onfi_seq::Gate;
use std::alloc::{AllocError, Global};
use std::io::{Read, Write};
use std::sync::Wait;
use std::thread::Threads;

/// The channels and hosts of a run after it, by a clock or in threads.
///
/// # Errors
/// Where memory was refused, as where a thread can't be made.
fn settle<R: Threads + Wait + Sync, P: Planner + Copy + Send + Drop, G: Gate + Send + Drop>(
    rt: &R,
    course: &Course<'_>,
    clocked: bool,
    stage: Stage<P, G>,
) -> Result<Settled<Gated<P, G>>, AllocError>
    ensures lanes { IfOk result (λ s. map lane_queues s.lanes.items ≡ map lane_queues stage.lanes.items) }
    ensures over { Each (λ l. IsWithin l) stage.lanes.items → IfOk result (λ s. Each (λ l. IsWithin l) s.lanes.items) }
    ensures stations { IfOk result (λ s. HaveSamePorts stage.stations s.stations) }
    ensures no_clock { clocked ≡ false → IfOk result (λ s. s.now ≡ 0) }
{
    let Stage { lanes, stations } = stage;
    if clocked {
        Ok(simulate(rt, course, lanes, stations))
    } else {
        run_threads(rt, course, lanes, stations)
    }
}

/// What came of the channels and hosts of a run, and what its clock showed, where it has one.
fn report_of<R: Wait, C: Channel + Drop>(
    rt: &R,
    alloc: Global,
    clocked: bool,
    settled: Settled<C>,
) -> Result<Report, AllocError>
    requires { AreLinked (map (λ l. C.queues l.channel) settled.lanes.items) settled.stations }
    ensures tells { IfOk result (λ report. Tells clocked settled.now (ports_of settled.stations) (map (λ l. l.pace.bus) settled.lanes.items) report) }
    ensures over { IfOk result (λ report. (nodes : Option ℕ) → Each (IsLaneWithin C.queues nodes) settled.lanes.items → Each (IsOverAt nodes) report.ends) }
{
    let Settled {
        lanes,
        stations,
        now,
    } = settled;
    if !clocked {
        return finish_all(rt, alloc, now, lanes, stations);
    }
    let buses = buses_of(alloc, lanes.as_slice())?;
    let report = finish_all(rt, alloc, now, lanes, stations)?;
    report.with_clock(alloc, buses)
}

/// Runs what was prepared, by a clock or in threads, and answers what it came to.
fn run<R: Threads + Wait + Sync, P: Planner + Copy + Send + Drop, G: Gate + Send + Drop>(
    rt: &R,
    alloc: Global,
    way: Way<P>,
    clocked: bool,
    gates: Vec<G>,
    prepared: &Prepared,
) -> Result<Report, AllocError>
    requires gates { length gates.items ≡ 4 }
    ensures report { IfOk result (λ report. IsReportOf clocked (nodes_by way.choice way.limit) prepared.now.rows.items report) }
    ensures tells { IfOk result (λ report. (settled : ASettled (AGated P G)) × AreBehind prepared.now.rows.items prepared.now.device.chips way gates.items settled.lanes.items
        × (clocked ≡ false → settled.now ≡ 0) × Tells clocked settled.now (ports_of settled.stations) (map (λ l. l.pace.bus) settled.lanes.items) report) }
{
    let rows = prepared.rows.as_slice();
    let stage = Stage::open(alloc, rows, &prepared.device, way, gates)?;
    let course = Course {
        alloc,
        geometry: &prepared.device.chips.geometry,
        rows,
    };
    let settled = settle(rt, &course, clocked, stage)?;
    report_of(rt, alloc, clocked, settled)
}

/// What the rows of a run are read for: moments of arrival stand in a run with a clock alone.
fn purpose_of(clocked: bool) -> Purpose
    ensures { result ≡ spec_purpose_of clocked }
{
    if !clocked {
        return Purpose::Run;
    }
    Purpose::Clocked
}

/// The answer to an input.
fn answer<R: Threads + Wait + Sync, P: Planner + Copy + Send + Drop, G: Gate + Send + Drop>(
    rt: &R,
    alloc: Global,
    way: Way<P>,
    clocked: bool,
    gates: Vec<G>,
    input: &[u8],
) -> Result<Traced, AllocError>
    requires gates { length gates.items ≡ 4 }
    ensures answer { IfOk result (λ t. IsAnswer clocked (nodes_by way.choice way.limit) input.now (answer_of t.answer)) }
    ensures traces { IfOk result (λ t. Each (λ trace. IfSome trace (λ text. IsTraceText text.items)) t.traces.items) }
{
    match prepare_for(alloc, purpose_of(clocked), input) {
        Ok(prepared) => {
            let report = run(rt, alloc, way, clocked, gates, &prepared)?;
            let answer = report_answer(alloc, &report)?;
            let traces = report.into_traces();
            Ok(Traced { answer, traces })
        }
        Err(Stop::Refused(refusal)) => {
            let answer = answer_refusal(alloc, refusal)?;
            let traces = Vec::new(alloc);
            Ok(Traced { answer, traces })
        }
        Err(Stop::Memory) => Err(AllocError),
    }
}

/// Reads a script of hosts' operations, runs each channel and each host in a thread of its own, and writes what each host
/// got. Each channel plans by [`PlainPlanner`], which is exact, with at most `limit` nodes, 1 to 1,048,576, for one
/// planning. Gate i, of four, is called before each turn of channel i.
///
/// Answers the exit status of the program: 0 only where each operation of the script is answered, 1 where the script is
/// refused, 3 where a channel stopped or was left unfinished, 4 where memory was refused, 6 where a planning opened `limit` nodes
/// and wasn't over.
///
/// # Errors
/// `Read` where a read failed or 2^40 reads did not come to the end: nothing was written. `Write` where a write failed: a
/// beginning of the answer was written.
pub fn run_script<R: Threads + Wait + Sync, G: Gate + Send + Drop, I: Read, O: Write>(
    rt: &R,
    alloc: Global,
    limit: u32,
    gates: Vec<G>,
    reader: &mut I,
    writer: &mut O,
) -> Result<u8, EngineFault>
    requires some { 1 ≤ limit }
    requires few { limit ≤ 1048576 }
    requires gates { length gates.items ≡ 4 }
    ensures answer { IfOk result (λ status. Answers false (Some limit) (I.remaining reader.old) (O.contents writer.old) (O.contents writer.new) status) }
    ensures unread { result ≡ Err EngineFault.Read → Keeps (O.contents writer.old) (O.contents writer.new) }
    ensures unwritten { result ≡ Err EngineFault.Write → BeginsAnswer false (Some limit) (I.remaining reader.old) (O.contents writer.old) (O.contents writer.new) }
{
    let way = Way::by_plans(PlainPlanner, Limit::of(limit).unwrap());
    run_script_by(rt, alloc, way, false, gates, reader, writer)
}

/// What [`run_script`] does, where each channel goes that way, and where `clocked` all channels and hosts run by one clock.
///
/// By a clock, one thread goes from moment to moment: at each, hosts submit and collect what they can and channels make
/// turns until nothing changes, and what a phase takes of the bus is waited for. So the report rests on the script and the
/// way alone, says when each reply was collected, how busy buses were and how long operations took.
///
/// A run that goes phase by phase has no channel that is over, so never status 6.
///
/// # Errors
/// As `run_script`.
pub fn run_script_by<
    R: Threads + Wait + Sync,
    P: Planner + Copy + Send + Drop,
    G: Gate + Send + Drop,
    I: Read,
    O: Write,
>(
    rt: &R,
    alloc: Global,
    way: Way<P>,
    clocked: bool,
    gates: Vec<G>,
    reader: &mut I,
    writer: &mut O,
) -> Result<u8, EngineFault>
    requires gates { length gates.items ≡ 4 }
    ensures answer { IfOk result (λ status. Answers clocked (nodes_by way.choice way.limit) (I.remaining reader.old) (O.contents writer.old) (O.contents writer.new) status) }
    ensures unread { result ≡ Err EngineFault.Read → Keeps (O.contents writer.old) (O.contents writer.new) }
    ensures unwritten { result ≡ Err EngineFault.Write → BeginsAnswer clocked (nodes_by way.choice way.limit) (I.remaining reader.old) (O.contents writer.old) (O.contents writer.new) }
{
    let input = match read_all(alloc, reader) {
        Ok(input) => input,
        Err(InputFault::Read) => return Err(EngineFault::Read),
        Err(InputFault::Memory) => return write_with_status(writer, b"memory\n", 4),
    };
    match answer(rt, alloc, way, clocked, gates, input.as_slice()) {
        Ok(traced) => write_with_status(
            writer,
            traced.answer.text.as_slice(),
            traced.answer.status,
        ),
        Err(AllocError) => write_with_status(writer, b"memory\n", 4),
    }
}

/// The answer to a script, run as [`run_script_by`] does, with gates that hold nothing up, and, where the way has traces, that of
/// each channel by its number: the command `run --trace` of the program.
///
/// # Errors
/// Where memory was refused.
pub fn run_freely<R: Threads + Wait + Sync, P: Planner + Copy + Send + Drop>(
    rt: &R,
    alloc: Global,
    way: Way<P>,
    clocked: bool,
    input: &[u8],
) -> Result<Traced, AllocError>
    ensures answer { IfOk result (λ t. IsAnswer clocked (nodes_by way.choice way.limit) input.now (answer_of t.answer)) }
    ensures traces { IfOk result (λ t. Each (λ trace. IfSome trace (λ text. IsTraceText text.items)) t.traces.items) }
{
    let gates = no_gates(alloc)?;
    answer(rt, alloc, way, clocked, gates, input)
}
