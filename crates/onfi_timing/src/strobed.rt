//! The lengths of each kind's phases where data and status bytes go by strobes.
ghost use Rattle.std.specs.Prelude.{◌≡◌, ◌≤◌, ◌<◌, ◌*◌, ◌+◌, ◌^◌, MatchResult};
ghost use Rattle.onfi_timing.specs.Strobes.{IsStrobedRead, IsStrobedProgram, IsStrobedErase, IsSheetBeside, IsBesideFault, beside_strobes, bytes_in, bytes_out, cycles, ns_up, strobed_status};

use crate::fault::SheetFault;
use crate::lengths::{command_time, of_erases, of_programs, of_reads};
use crate::sheet::Sheet;
use crate::spans::Spans;
use crate::strobe_values::StrobeValues;
use crate::values::Values;
use onfi_addr::Geometry;
use onfi_param::ParamPage;

/// The values of a sheet beside strobes, whose tRC is not looked at; that of the values is 0.
///
/// # Errors
/// `Missing` with the first parameter but tRC that the sheet doesn't give; else `ZeroCycle` where tWC is 0.
pub fn values_beside(sheet: &Sheet) -> Result<Values, SheetFault>
    ensures { MatchResult result (λ values. IsSheetBeside sheet.now values) (λ fault. IsBesideFault sheet.now fault) }
{
    let sheet = Sheet {
        t_rc: Some(0),
        ..*sheet
    };
    match Values::of(&sheet) {
        Ok(values) if values.t_wc == 0 => Err(SheetFault::ZeroCycle),
        Ok(values) => Ok(values),
        Err(parameter) => Err(SheetFault::Missing(parameter)),
    }
}

// How long the cycles of that many bytes take, in ps.
fn cycles_time(bytes: u16, cycle: u32) -> u64
    ensures value { result ≡ cycles bytes * cycle }
    ensures small { result ≤ 2 ^ 47 }
{
    (u64::from(bytes) + 1) / 2 * u64::from(cycle)
}

/// How long that many bytes take out of the device, in ps.
pub fn time_out(strobes: &StrobeValues, bytes: u16) -> u64
    ensures value { result ≡ bytes_out strobes.now bytes }
    ensures small { result ≤ 2 ^ 48 }
{
    u64::from(strobes.t_rpre)
        + cycles_time(bytes, strobes.t_rc)
        + u64::from(strobes.t_rpst)
        + u64::from(strobes.t_rpsth)
}

// How long that many bytes take into the device, in ps.
fn time_in(strobes: &StrobeValues, bytes: u16) -> u64
    ensures value { result ≡ bytes_in strobes.now bytes }
    ensures small { result ≤ 2 ^ 48 }
{
    u64::from(strobes.t_wpre)
        + cycles_time(bytes, strobes.t_dsc)
        + u64::from(strobes.t_wpst)
        + u64::from(strobes.t_wpsth)
}

/// A phase of some ns, and of some ps by strobes, in whole ns: rounded up once.
pub fn rounded_up(plain: u64, strobed: u64) -> u64
    requires plain { plain ≤ 2 ^ 38 }
    requires strobed { strobed ≤ 2 ^ 48 }
    ensures value { result ≡ ns_up (1000 * plain + strobed) }
    ensures some { plain ≤ result }
    ensures short { result < 2 ^ 50 }
{
    (1000 * plain + strobed + 999) / 1000
}

// How long a status byte holds the bus.
fn status_time(geometry: &Geometry, values: &Values, strobes: &StrobeValues) -> u64
    requires cycle { 1 ≤ values.now.t_wc }
    ensures value { result ≡ strobed_status geometry.now values.now strobes.now }
    ensures some { 1 ≤ result }
    ensures short { result < 2 ^ 50 }
{
    let command = (1 + u64::from(geometry.row_address_cycles)) * u64::from(values.t_wc);
    let plain = command + u64::from(values.t_whr) + u64::from(values.t_rhw);
    rounded_up(plain, time_out(strobes, 1))
}

/// Lengths of reads.
pub fn reads_by_strobes(
    page: &ParamPage,
    geometry: &Geometry,
    values: &Values,
    strobes: &StrobeValues,
) -> Spans
    requires cycle { 1 ≤ values.now.t_wc }
    ensures { IsStrobedRead page.now geometry.now values.now strobes.now result }
{
    let plain = command_time(geometry, values.t_wc)
        + u64::from(page.t_ccs())
        + u64::from(values.t_rhw);
    let spans = of_reads(page, geometry, values);
    Spans {
        cmd: spans.cmd,
        gap: spans.gap,
        array: spans.array,
        post: rounded_up(plain, time_out(strobes, geometry.page_bytes())),
    }
}

/// Lengths of programs.
pub fn programs_by_strobes(
    page: &ParamPage,
    geometry: &Geometry,
    values: &Values,
    strobes: &StrobeValues,
) -> Spans
    requires cycle { 1 ≤ values.now.t_wc }
    ensures { IsStrobedProgram page.now geometry.now values.now strobes.now result }
{
    let plain = command_time(geometry, values.t_wc) + u64::from(values.t_adl);
    let spans = of_programs(page, geometry, values);
    Spans {
        cmd: rounded_up(plain, time_in(strobes, geometry.page_bytes())),
        gap: spans.gap,
        array: spans.array,
        post: status_time(geometry, values, strobes),
    }
}

/// Lengths of erases.
pub fn erases_by_strobes(
    page: &ParamPage,
    geometry: &Geometry,
    values: &Values,
    strobes: &StrobeValues,
) -> Spans
    requires cycle { 1 ≤ values.now.t_wc }
    ensures { IsStrobedErase page.now geometry.now values.now strobes.now result }
{
    let spans = of_erases(page, geometry, values);
    Spans {
        cmd: spans.cmd,
        gap: spans.gap,
        array: spans.array,
        post: status_time(geometry, values, strobes),
    }
}
