//! A thread for each channel, and one for each host that is used.
ghost use Rattle.std.specs.Prelude.{◌≡◌, ℕ, List, IfOk, map};
ghost use Rattle.std.specs.List.{AllByRecursion as Each};
ghost use Rattle.std.specs.Option.{is_some};
ghost use Rattle.onfi_script.specs.declared.row.Row.{Row as ARow};
ghost use Rattle.onfi_run.specs.declared.port.Port.{Port};
ghost use Rattle.onfi_run.specs.Keys.{HasSamePorts, HaveSamePorts};
ghost use Rattle.onfi_run.specs.Operations.{operation_of};
ghost use Rattle.onfi_run.specs.Pace.{EndsWithin};
ghost use Rattle.onfi_run.specs.Threads.{IsWorkerOf, is_used as spec_is_used};

use crate::acts::Course;
use crate::board::Board;
use crate::channel::Channel;
use crate::lane::Lane;
use crate::simulation::Settled;
use crate::station::{NO_MOMENT, Station};
use onfi_addr::Geometry;
use onfi_script::Row;
use std::alloc::{AllocError, Global};
use std::snapshot::Snapshot;
use std::sync::Wait;
use std::thread;
use std::thread::{Promise, PromisedHandle, Scope, Threads};

/// What all threads of a run share.
#[derive(Clone, Copy)]
struct Shared<'s> {
    alloc: Global,
    board: &'s Board,
    geometry: &'s Geometry,
    rows: &'s [Row],
}

/// It gives back the ends of the channel that it was given, which is over only at its limit.
#[derive(Drop)]
struct GivesLane<C: Channel> {
    was: Snapshot<Lane<C>>,
}

impl<C: Channel> Promise<Lane<C>> for GivesLane<C> {
    ghost use Rattle.std.specs.Prelude.{◌≡◌};
    ghost use Rattle.onfi_run.specs.Pace.{EndsWithin};

    ghost kept_by = { λ p r. (C.queues r.channel ≡ C.queues p.was.value.channel) × EndsWithin C.queues r };
}

/// It gives back the ends of the host that it was given.
#[derive(Drop)]
struct GivesStation {
    was: Snapshot<Station>,
}

impl Promise<Station> for GivesStation {
    ghost use Rattle.onfi_run.specs.Keys.{HasSamePorts};

    ghost kept_by = { λ p r. HasSamePorts p.was.value.ports.items r.ports.items };
}

/// A host that is at work in its thread, or one that isn't used.
#[derive(Drop)]
enum Worker {
    AtWork(PromisedHandle<Station, GivesStation>),
    Unused(Station),
}

/// Whether a row is an operation of that host.
fn is_of_host(row: &Row, host: u8) -> bool
    ensures { result ≡ is_some (operation_of host row.now) }
{
    match row {
        Row::Op(operation) => operation.aim.host == host,
        _ => false,
    }
}

/// Whether a row names that host for an operation.
fn is_used(rows: &[Row], host: u8) -> bool
    ensures { result ≡ spec_is_used rows.now host }
{
    rows.iter().any(|row| is_of_host(row, host))
}

/// Starts the thread of a host, if it is used.
///
/// # Errors
/// Where memory was refused, as where no thread can be made: all that others wait for has ended then.
fn start_host<'s, E, R: Threads + Wait + Sync>(
    scope: &'s Scope<'s, E>,
    rt: &'s R,
    shared: Shared<'s>,
    station: Station,
) -> Result<Worker, AllocError>
    ensures { IfOk result (λ w. IsWorkerOf shared.entry.rows.now station.number station.ports.items w) }
{
    if !is_used(shared.rows, station.number) {
        shared.board.end_host(station.number);
        return Ok(Worker::Unused(station));
    }
    let promise = GivesStation {
        was: Snapshot::of(&station),
    };
    let started = scope.spawn_with(promise, move || {
        station.work(rt, shared.alloc, shared.geometry, shared.board, shared.rows)
    });
    match started {
        Ok(handle) => Ok(Worker::AtWork(handle)),
        Err(_) => {
            shared.board.give_up();
            Err(AllocError)
        }
    }
}

/// The host after its work.
fn finish_host<R: Threads>(rt: &R, worker: Worker) -> Station
    ensures { (rows : List ARow) (host : ℕ) (ports : List Port) → IsWorkerOf rows host ports worker → HasSamePorts ports result.ports.items }
{
    match worker {
        Worker::AtWork(handle) => handle.join(rt),
        Worker::Unused(station) => station,
    }
}

/// All hosts after their work, each in its thread.
///
/// # Errors
/// As [`start_host`].
fn work_all<'s, E, R: Threads + Wait + Sync>(
    scope: &'s Scope<'s, E>,
    rt: &'s R,
    shared: Shared<'s>,
    stations: [Station; 4],
) -> Result<[Station; 4], AllocError>
    ensures { IfOk result (λ r. HaveSamePorts stations r) }
{
    let workers = stations.try_map(
        |station: Station| -> Result<Worker, AllocError>
            ensures { IfOk result (λ w. IsWorkerOf shared.entry.rows.now station.number station.ports.items w) }
        { start_host(scope, rt, shared, station) },
    )?;
    Ok(workers.map(
        |worker: Worker| -> Station
            ensures { (rows : List ARow) (host : ℕ) (ports : List Port) → IsWorkerOf rows host ports worker → HasSamePorts ports result.ports.items }
        { finish_host(rt, worker) },
    ))
}

/// Starts the thread of a channel.
///
/// # Errors
/// As [`start_host`].
fn spawn_lane<'s, E, R: Threads + Wait + Sync, C: Channel + Send + Drop + 's>(
    scope: &'s Scope<'s, E>,
    rt: &'s R,
    shared: Shared<'s>,
    number: usize,
    lane: Lane<C>,
) -> Result<PromisedHandle<Lane<C>, GivesLane<C>>, AllocError>
    ensures { IfOk result (λ h. h.promise.was.value ≡ lane) }
{
    let promise = GivesLane {
        was: Snapshot::of(&lane),
    };
    let started = scope.spawn_with(promise, move || {
        lane.serve(rt, shared.alloc, shared.board, number)
    });
    match started {
        Ok(handle) => Ok(handle),
        Err(_) => {
            shared.board.give_up();
            Err(AllocError)
        }
    }
}

/// All channels served, each in its thread, while the hosts are at work.
///
/// # Errors
/// As [`start_host`].
fn serve_all<'s, E, R: Threads + Wait + Sync, C: Channel + Send + Drop + 's>(
    scope: &'s Scope<'s, E>,
    rt: &'s R,
    shared: Shared<'s>,
    lanes: Vec<Lane<C>>,
    stations: [Station; 4],
) -> Result<(Vec<Lane<C>>, [Station; 4]), AllocError>
    ensures lanes { IfOk result (λ r. map (λ l. C.queues l.channel) r.0.items ≡ map (λ l. C.queues l.channel) lanes.items) }
    ensures over { IfOk result (λ r. Each (EndsWithin C.queues) r.0.items) }
    ensures stations { IfOk result (λ r. HaveSamePorts stations r.1) }
{
    let mut left = lanes;
    let Some(lane) = left.pop() else {
        let stations = work_all(scope, rt, shared, stations)?;
        return Ok((left, stations));
    };
    let handle = spawn_lane(scope, rt, shared, left.len(), lane)?;
    let rest = serve_all(scope, rt, shared, left, stations);
    let lane = handle.join(rt);
    let (mut lanes, stations) = rest?;
    lanes.push(lane)?;
    Ok((lanes, stations))
}

/// The channels and hosts after the work of all hosts, while all channels were served.
///
/// # Errors
/// Where memory was refused, as where a thread can't be made.
pub(crate) fn run_threads<R: Threads + Wait + Sync, C: Channel + Send + Drop>(
    rt: &R,
    course: &Course<'_>,
    lanes: Vec<Lane<C>>,
    stations: [Station; 4],
) -> Result<Settled<C>, AllocError>
    ensures lanes { IfOk result (λ s. map (λ l. C.queues l.channel) s.lanes.items ≡ map (λ l. C.queues l.channel) lanes.items) }
    ensures over { IfOk result (λ s. Each (EndsWithin C.queues) s.lanes.items) }
    ensures stations { IfOk result (λ s. HaveSamePorts stations s.stations) }
    ensures no_clock { IfOk result (λ s. s.now ≡ 0) }
{
    let board = Board::new();
    let shared = Shared {
        alloc: course.alloc,
        board: &board,
        geometry: course.geometry,
        rows: course.rows,
    };
    let (lanes, stations) = thread::scope(
        thread::scope_env(),
        rt,
        move |scope| -> Result<(Vec<Lane<C>>, [Station; 4]), AllocError>
            ensures lanes { IfOk result (λ r. map (λ l. C.queues l.channel) r.0.items ≡ map (λ l. C.queues l.channel) lanes.items) }
            ensures over { IfOk result (λ r. Each (EndsWithin C.queues) r.0.items) }
            ensures stations { IfOk result (λ r. HaveSamePorts stations r.1) }
        { serve_all(scope, rt, shared, lanes, stations) },
    )?;
    Ok(Settled {
        lanes,
        stations,
        now: NO_MOMENT,
    })
}
