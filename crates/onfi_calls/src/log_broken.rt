//! Which condition a phase of a log breaks, in plain numbers.
ghost use Rattle.std.specs.Prelude.{◌≡◌};
ghost use Rattle.onfi_calls.specs.LogBroken as spec;

use onfi_audit::LogBreach;

/// The condition that a phase of a log breaks, from 1; 0 where it breaks none. What it says of requests, LUNs and times stands where
/// the header says; all else is 0. Times are ns.
#[repr(C)]
#[derive(Clone, Copy)]
pub struct PlainLogBroken {
    pub want: u64,
    pub other_want: u64,
    pub start: u64,
    pub earliest: u64,
    pub block: u16,
    pub page: u16,
    pub condition: u8,
    pub lun: u8,
    pub is_post: bool,
}

/// What is reported where no condition is broken.
pub const UNBROKEN: PlainLogBroken = PlainLogBroken {
    want: 0,
    other_want: 0,
    start: 0,
    earliest: 0,
    block: 0,
    page: 0,
    condition: 0,
    lun: 0,
    is_post: false,
};

/// A condition of a LUN.
fn of_lun(condition: u8, lun: u8) -> PlainLogBroken
    ensures { result ≡ spec.of_lun condition lun }
{
    PlainLogBroken {
        condition,
        lun,
        ..UNBROKEN
    }
}

/// A phase that starts before it could.
fn too_soon(condition: u8, lun: u8, start: u64, earliest: u64) -> PlainLogBroken
    ensures { result ≡ spec.too_soon condition lun start earliest }
{
    PlainLogBroken {
        condition,
        lun,
        start,
        earliest,
        ..UNBROKEN
    }
}

/// Two requests that don't go together.
fn pair_requests(condition: u8, other_want: u64, want: u64) -> PlainLogBroken
    ensures { result ≡ spec.paired condition other_want want }
{
    PlainLogBroken {
        condition,
        want,
        other_want,
        ..UNBROKEN
    }
}

/// Any condition.
pub fn plain_log_breach(breach: LogBreach) -> PlainLogBroken
    ensures { result ≡ spec.written_breach breach }
{
    match breach {
        LogBreach::TooLate => UNBROKEN,
        LogBreach::NoLun { lun } => of_lun(1, lun),
        LogBreach::NothingRuns { lun } => of_lun(2, lun),
        LogBreach::OtherPhase {
            lun,
            is_post,
            block,
            page,
        } => PlainLogBroken {
            is_post,
            block,
            page,
            ..of_lun(3, lun)
        },
        LogBreach::UnknownRequest { lun, block } => PlainLogBroken {
            block,
            ..of_lun(4, lun)
        },
        LogBreach::BlockOrder { earlier, later } => pair_requests(5, earlier, later),
        LogBreach::NotGrouped { first, request } => pair_requests(6, first, request),
        LogBreach::BusNotFree { start, bus_free } => too_soon(7, 0, start, bus_free),
        LogBreach::LunNotFree { lun, start, since } => too_soon(8, lun, start, since),
        LogBreach::NotReady { lun, start, ready } => too_soon(9, lun, start, ready),
    }
}
