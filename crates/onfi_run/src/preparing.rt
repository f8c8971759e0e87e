//! Reading the script of a run, with all refusals in their order.
ghost use Rattle.std.specs.Prelude.{◌≡◌, IfOk, MatchResult};
ghost use Rattle.onfi_script.specs.Stop.{IfRefused};
ghost use Rattle.onfi_run.specs.Prepared as spec;
ghost use Rattle.onfi_run.specs.Prepares.{IsPrepared, IsRefused};
ghost use Rattle.onfi_run.specs.Setup.{channels_in, hosts_in};

use crate::request::request_fault;
use crate::setup::{channel_count, host_count};
use crate::stated::{StatedDevice, read_stated_device};
use onfi_addr::Geometry;
use onfi_script::{
    Operation, PageDevice, Purpose, Refusal, Row, RowStop, ScriptFault, Stop, read_rows,
};
use std::alloc::{AllocError, Global};

/// The rows of a run that are each in order, and the device that they describe.
#[derive(Drop)]
pub struct Prepared {
    pub rows: Vec<Row>,
    pub device: StatedDevice,
}

/// How many channels and hosts there are, and what their chips are.
#[derive(Clone, Copy)]
struct Bounds {
    channels: u8,
    hosts: u8,
    geometry: Geometry,
}

/// Out of range, unless that is there.
fn refuse_absent(there: bool) -> Option<ScriptFault>
    ensures { result ≡ spec.unless_there there }
{
    if there {
        None
    } else {
        Some(ScriptFault::OutOfRange)
    }
}

/// What is wrong with an operation.
fn op_fault(
    alloc: Global,
    bounds: &Bounds,
    operation: &Operation,
) -> Result<Option<ScriptFault>, AllocError>
    ensures { IfOk result (λ f. f ≡ spec.op_fault bounds.now.channels bounds.now.hosts bounds.now.geometry operation.now) }
{
    let aim = operation.aim;
    if !(aim.host < bounds.hosts && aim.channel < bounds.channels) {
        return Ok(Some(ScriptFault::OutOfRange));
    }
    match request_fault(alloc, &bounds.geometry, operation)? {
        Some(fault) => Ok(Some(ScriptFault::Request(fault))),
        None => Ok(None),
    }
}

/// What is wrong with a row on this device.
fn row_fault(alloc: Global, bounds: &Bounds, row: &Row) -> Result<Option<ScriptFault>, AllocError>
    ensures { IfOk result (λ f. f ≡ spec.row_fault bounds.now.channels bounds.now.hosts bounds.now.geometry row.now) }
{
    match row {
        Row::Op(operation) => op_fault(alloc, bounds, operation),
        Row::Fault { channel, fault } => Ok(refuse_absent(
            *channel < bounds.channels
                && fault.lun < bounds.geometry.lun_count
                && u32::from(fault.block) < bounds.geometry.blocks_per_lun,
        )),
        Row::ChipFail { channel, .. } | Row::NotReady { channel, .. } => {
            Ok(refuse_absent(*channel < bounds.channels))
        }
        Row::Array { channel, lun, .. } => Ok(refuse_absent(
            *channel < bounds.channels && *lun < bounds.geometry.lun_count,
        )),
        Row::Sector { bytes } => Ok(refuse_absent(*bytes <= bounds.geometry.page_bytes())),
        _ => Ok(None),
    }
}

/// The first row with which something is wrong on this device.
fn first_refused(
    alloc: Global,
    bounds: &Bounds,
    rows: &[Row],
) -> Result<Option<Refusal>, AllocError>
    ensures { IfOk result (λ r. r ≡ spec.first_refused bounds.now.channels bounds.now.hosts bounds.now.geometry 1 rows.now) }
{
    for (at, row) in rows.iter().enumerate() {
        if let Some(fault) = row_fault(alloc, bounds, row)? {
            return Ok(Some(Refusal {
                row: at as u64 + 1,
                fault,
            }));
        }
    }
    Ok(None)
}

/// The first row with which something is wrong on this device, with its hosts and channels.
fn refusal_on(
    alloc: Global,
    rows: &[Row],
    device: &PageDevice,
) -> Result<Option<Refusal>, AllocError>
    ensures { IfOk result (λ r. r ≡ spec.first_refused (channels_in rows.now) (hosts_in rows.now) device.now.geometry 1 rows.now) }
{
    let bounds = Bounds {
        channels: channel_count(rows),
        hosts: host_count(rows),
        geometry: device.geometry,
    };
    first_refused(alloc, &bounds, rows)
}

/// The rows of an input, where nothing is wrong with the script.
///
/// # Errors
/// The first refusal: no line `end`; the rows from the top, each for its name, its place, its count of fields, its
/// fields, and what an earlier row said; the device; the rows once more, for hosts, channels, LUNs and blocks that
/// aren't there, for a sector longer than a page and for operations that the device doesn't take. And where memory was
/// refused.
pub fn prepare(alloc: Global, input: &[u8]) -> Result<Prepared, Stop>
    ensures { MatchResult result (λ p. IsPrepared Purpose.Run input.now p.rows.items p.device.chips) (λ stop. IfRefused stop (λ refusal. IsRefused Purpose.Run input.now refusal)) }
{
    prepare_for(alloc, Purpose::Run, input)
}

/// What [`prepare`] does of a script for that purpose: with moments of arrival where it is `Clocked`.
///
/// # Errors
/// As `prepare`.
pub fn prepare_for(alloc: Global, purpose: Purpose, input: &[u8]) -> Result<Prepared, Stop>
    ensures { MatchResult result (λ p. IsPrepared purpose input.now p.rows.items p.device.chips) (λ stop. IfRefused stop (λ refusal. IsRefused purpose input.now refusal)) }
{
    let rows = read_rows(alloc, purpose, input)?;
    match read_stated_device(alloc, rows.as_slice()) {
        Ok(device) => match refusal_on(alloc, rows.as_slice(), &device.chips) {
            Ok(None) => Ok(Prepared { rows, device }),
            Ok(Some(refusal)) => Err(Stop::Refused(refusal)),
            Err(AllocError) => Err(Stop::Memory),
        },
        Err(RowStop::Fault(fault)) => Err(Stop::Refused(Refusal { row: 0, fault })),
        Err(RowStop::Memory) => Err(Stop::Memory),
    }
}
