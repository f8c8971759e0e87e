//! The lengths of each kind's phases, by the table.
ghost use Rattle.std.specs.Prelude.{◌≡◌, ◌≤◌, ◌*◌, ◌+◌, ◌^◌};
ghost use Rattle.onfi_timing.specs.Table.{IsReadTime, IsProgramTime, IsEraseTime, command_cycles, ns_of, status_time};

use crate::spans::Spans;
use crate::values::Values;
use onfi_addr::Geometry;
use onfi_param::ParamPage;

/// How long a command with column and row cycles holds the bus.
pub fn command_time(geometry: &Geometry, t_wc: u32) -> u64
    ensures value { result ≡ command_cycles geometry.now * t_wc }
    ensures small { result ≤ 2 ^ 37 }
{
    let cycles = 2
        + u64::from(geometry.column_address_cycles)
        + u64::from(geometry.row_address_cycles);
    cycles * u64::from(t_wc)
}

// How long a status byte holds the bus.
fn status_time(geometry: &Geometry, values: &Values) -> u64
    ensures { result ≡ status_time geometry.now values.now }
{
    (1 + u64::from(geometry.row_address_cycles)) * u64::from(values.t_wc)
        + u64::from(values.t_whr)
        + u64::from(values.t_rc)
        + u64::from(values.t_rhw)
}

// The array wait of an operation that the page gives in microseconds.
fn array_wait(values: &Values, microseconds: u16) -> u64
    ensures { result ≡ values.now.t_wb + ns_of microseconds }
{
    u64::from(values.t_wb) + 1000 * u64::from(microseconds)
}

/// Lengths of reads.
pub fn of_reads(page: &ParamPage, geometry: &Geometry, values: &Values) -> Spans
    requires cycle { 1 ≤ values.now.t_wc }
    ensures { IsReadTime page.now geometry.now values.now result }
{
    let command = command_time(geometry, values.t_wc);
    let data = u64::from(geometry.page_bytes()) * u64::from(values.t_rc);
    Spans {
        cmd: command,
        gap: u64::from(values.t_wb) + u64::from(values.t_plrbsy),
        array: array_wait(values, page.t_r()),
        post: command + u64::from(page.t_ccs()) + data + u64::from(values.t_rhw),
    }
}

/// Lengths of programs.
pub fn of_programs(page: &ParamPage, geometry: &Geometry, values: &Values) -> Spans
    requires cycle { 1 ≤ values.now.t_wc }
    ensures { IsProgramTime page.now geometry.now values.now result }
{
    let data = u64::from(geometry.page_bytes()) * u64::from(values.t_wc);
    Spans {
        cmd: command_time(geometry, values.t_wc) + u64::from(values.t_adl) + data,
        gap: u64::from(values.t_wb) + u64::from(values.t_plpbsy),
        array: array_wait(values, page.t_prog()),
        post: status_time(geometry, values),
    }
}

/// Lengths of erases.
pub fn of_erases(page: &ParamPage, geometry: &Geometry, values: &Values) -> Spans
    requires cycle { 1 ≤ values.now.t_wc }
    ensures { IsEraseTime page.now geometry.now values.now result }
{
    Spans {
        cmd: (2 + u64::from(geometry.row_address_cycles)) * u64::from(values.t_wc),
        gap: u64::from(values.t_wb) + u64::from(values.t_plebsy),
        array: array_wait(values, page.t_bers()),
        post: status_time(geometry, values),
    }
}
