//! The simulated chip of a channel.
ghost use Rattle.std.specs.Prelude.{◌≡◌, IfOk};
ghost use Rattle.onfi_core.specs.Queues.{IsFresh};
ghost use Rattle.onfi_chip.specs.SimChip.{array_times as times_of, chip_in, failing_calls, failing_statuses};
ghost use Rattle.onfi_run.specs.Chips as spec;

use onfi_chip::{ArrayTime, SimChip};
use onfi_core::Setup;
use onfi_request::Fault;
use onfi_script::Row;
use std::alloc::{AllocError, Global};

/// The fault of the channel's chip that a row gives.
fn fault_on(row: &Row, channel: u8) -> Option<Fault>
    ensures { result ≡ spec.fault_on channel row.now }
{
    match row {
        Row::Fault { channel: on, fault } if *on == channel => Some(*fault),
        _ => None,
    }
}

/// The failing call of the channel's chip that a row gives.
fn read_failing(row: &Row, channel: u8) -> Option<u32>
    ensures { result ≡ spec.failing_on channel row.now }
{
    match row {
        Row::ChipFail {
            channel: on,
            number,
        } if *on == channel => Some(*number),
        _ => None,
    }
}

/// The status call of the channel's chip that says that a LUN isn't ready, as a row gives it.
fn read_unready(row: &Row, channel: u8) -> Option<u32>
    ensures { result ≡ spec.unready_on channel row.now }
{
    match row {
        Row::NotReady {
            channel: on,
            number,
        } if *on == channel => Some(*number),
        _ => None,
    }
}

/// How long an operation of an array of the channel's chip really takes, as a row says.
fn array_time_on(row: &Row, channel: u8) -> Option<ArrayTime>
    ensures { result ≡ spec.array_time_on channel row.now }
{
    match row {
        Row::Array {
            channel: on,
            lun,
            number,
            length,
        } if *on == channel => Some(ArrayTime {
            lun: *lun,
            number: *number,
            length: *length,
        }),
        _ => None,
    }
}

/// All faults of the channel's chip.
fn faults(alloc: Global, rows: &[Row], channel: u8) -> Result<Vec<Fault>, AllocError>
    ensures { IfOk result (λ v. v.items ≡ spec.all_on (spec.fault_on channel) rows.now) }
{
    rows.iter()
        .filter_map(|row| fault_on(row, channel))
        .collect(alloc)
}

/// All failing calls of the channel's chip.
fn list_failing(alloc: Global, rows: &[Row], channel: u8) -> Result<Vec<u32>, AllocError>
    ensures { IfOk result (λ v. v.items ≡ spec.all_on (spec.failing_on channel) rows.now) }
{
    rows.iter()
        .filter_map(|row| read_failing(row, channel))
        .collect(alloc)
}

/// All status calls of the channel's chip that say that a LUN isn't ready.
fn list_unready(alloc: Global, rows: &[Row], channel: u8) -> Result<Vec<u32>, AllocError>
    ensures { IfOk result (λ v. v.items ≡ spec.all_on (spec.unready_on channel) rows.now) }
{
    rows.iter()
        .filter_map(|row| read_unready(row, channel))
        .collect(alloc)
}

/// How long the arrays of the channel's chip really take.
fn array_times(alloc: Global, rows: &[Row], channel: u8) -> Result<Vec<ArrayTime>, AllocError>
    ensures { IfOk result (λ v. v.items ≡ spec.all_on (spec.array_time_on channel) rows.now) }
{
    rows.iter()
        .filter_map(|row| array_time_on(row, channel))
        .collect(alloc)
}

/// The chip of a channel as it opens, with the faults, failing calls and real array times that the rows give for it.
///
/// # Errors
/// Where memory was refused.
pub fn chip_of(
    alloc: Global,
    setup: &Setup,
    rows: &[Row],
    channel: u8,
) -> Result<SimChip, AllocError>
    ensures fresh { IfOk result (λ chip. IsFresh setup.now (chip_in chip)) }
    ensures faults { IfOk result (λ chip. (chip_in chip).faults ≡ spec.all_on (spec.fault_on channel) rows.now) }
    ensures calls { IfOk result (λ chip. failing_calls chip ≡ spec.all_on (spec.failing_on channel) rows.now) }
    ensures statuses { IfOk result (λ chip. failing_statuses chip ≡ spec.all_on (spec.unready_on channel) rows.now) }
    ensures arrays { IfOk result (λ chip. times_of chip ≡ spec.all_on (spec.array_time_on channel) rows.now) }
{
    let chip = SimChip::new(
        alloc,
        setup.geometry,
        setup.timing,
        faults(alloc, rows, channel)?,
        list_failing(alloc, rows, channel)?,
        list_unready(alloc, rows, channel)?,
    )?;
    Ok(chip.with_array_times(array_times(alloc, rows, channel)?))
}
