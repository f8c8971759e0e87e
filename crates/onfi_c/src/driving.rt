//! What a driver asks and says of each phase, for C.
ghost use Rattle.onfi_calls.specs.Geometry.{GivesRow};
ghost use Rattle.std.specs.Prelude.{take};
ghost use Rattle.onfi_calls.specs.Due.{GivesDue};
ghost use Rattle.onfi_calls.specs.Ran.{GivesRan};
ghost use Rattle.onfi_calls.specs.Output as output_spec;

use onfi_calls::{PlainChannel, PlainGeometry, PlainOutput, PlainPhase, PlainSchedule, PlainWant};
use std::alloc::Global;

/// Is [`onfi_row`](onfi_calls::onfi_row) for C.
#[unsafe(no_mangle)]
pub extern "C" fn onfi_row(
    geometry: &PlainGeometry,
    lun: u8,
    block: u16,
    page: u16,
    row: &mut u32,
) -> u32
    ensures { GivesRow geometry.now (record { lun = lun; block = block; page = page }) row.old row.new result }
{
    onfi_calls::onfi_row(geometry, lun, block, page, row)
}

/// Is [`onfi_due`](onfi_calls::onfi_due) for C.
#[unsafe(no_mangle)]
pub extern "C" fn onfi_due(
    alloc: Global,
    channel: &PlainChannel,
    wants: &[PlainWant],
    geometry: &PlainGeometry,
    schedule: &PlainSchedule,
    phase: &mut PlainPhase,
) -> u32
    ensures { GivesDue channel.now wants.now geometry.now schedule.now phase.old phase.new result }
{
    onfi_calls::onfi_due(alloc, channel, wants, geometry, schedule, phase)
}

/// Is [`onfi_ran`](onfi_calls::onfi_ran) for C.
#[unsafe(no_mangle)]
pub extern "C" fn onfi_ran(
    alloc: Global,
    channel: &mut PlainChannel,
    wants: &mut [PlainWant; 8],
    count: &mut usize,
    schedule: &mut PlainSchedule,
    lun: u8,
    number: u8,
    started: u64,
) -> u32
    ensures { GivesRan
        (record { channel = channel.old; wants = take count.old wants.old; schedule = schedule.old })
        (record { channel = channel.new; wants = take count.new wants.new; schedule = schedule.new })
        wants.old wants.new count.old count.new lun number started result }
{
    onfi_calls::onfi_ran(alloc, channel, wants, count, schedule, lun, number, started)
}

/// Is [`onfi_output_of`](onfi_calls::onfi_output_of) for C.
#[unsafe(no_mangle)]
pub extern "C" fn onfi_output_of(
    geometry: &PlainGeometry,
    sector_bytes: u16,
    phase: &PlainPhase,
    first: u8,
    output: &mut PlainOutput,
) -> u32
    ensures { output_spec.GivesOutput geometry.now sector_bytes phase.now first output.old output.new result }
{
    onfi_calls::onfi_output_of(geometry, sector_bytes, phase, first, output)
}
