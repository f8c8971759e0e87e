//! Numbers of what a script or its device doesn't have.
use crate::fields::{field, read_named_number};
use csv::ByteRecord;
use onfi_script::{Purpose, device_of, page_device, read_rows};
use std::alloc::Global;

/// The most rows `op` and `opread` of a script.
const MOST_OPS: usize = 10_000;

/// How many there are of what rows name by a number; none where that isn't known.
#[derive(Clone, Copy)]
struct Counts {
    hosts: Option<u64>,
    channels: Option<u64>,
    luns: Option<u64>,
    blocks: Option<u64>,
}

/// How many channels or hosts the rows of this name set up.
fn count_in(records: &[ByteRecord], name: &[u8]) -> u64 {
    let row = records.iter().find(|record| field(record, 0) == name);
    row.and_then(|record| read_named_number(record, "N"))
        .unwrap_or(1)
}

/// What a script of a run has; one of a run by a clock may have more rows.
fn run_counts(alloc: Global, text: &[u8], records: &[ByteRecord]) -> Counts {
    let device = match read_rows(alloc, Purpose::Clocked, text) {
        Ok(rows) => page_device(alloc, rows.as_slice()).ok(),
        Err(_) => None,
    };
    let geometry = device.map(|device| device.geometry);
    Counts {
        hosts: Some(count_in(records, b"hosts")),
        channels: Some(count_in(records, b"channels")),
        luns: geometry.map(|geometry| u64::from(geometry.lun_count)),
        blocks: geometry.map(|geometry| u64::from(geometry.blocks_per_lun)),
    }
}

/// What a script of a problem has.
fn problem_counts(alloc: Global, text: &[u8]) -> Counts {
    let device = match read_rows(alloc, Purpose::Problem, text) {
        Ok(rows) => device_of(alloc, rows.as_slice()).ok(),
        Err(_) => None,
    };
    Counts {
        hosts: None,
        channels: None,
        luns: device.map(|device| u64::from(device.luns)),
        blocks: None,
    }
}

/// The number of a field where it is none of that many.
fn find_beyond(record: &ByteRecord, name: &str, count: Option<u64>) -> Option<u64> {
    let number = read_named_number(record, name)?;
    match count {
        Some(count) if number >= count => Some(count),
        _ => None,
    }
}

/// The first field of a row that names what isn't there, and how many there are.
pub fn find_absent_field(
    alloc: Global,
    purpose: Purpose,
    text: &[u8],
    records: &[ByteRecord],
    record: &ByteRecord,
) -> Option<(&'static str, u64)> {
    let counts = match purpose {
        Purpose::Run | Purpose::Clocked => run_counts(alloc, text, records),
        Purpose::Problem => problem_counts(alloc, text),
    };
    let of = [
        ("HOST", counts.hosts),
        ("CHANNEL", counts.channels),
        ("LUN", counts.luns),
        ("BLOCK", counts.blocks),
    ];
    for (name, count) in of {
        if let Some(count) = find_beyond(record, name, count) {
            return Some((name, count));
        }
    }
    None
}

/// Whether a row of this name is an operation of a host.
fn is_op(name: &[u8]) -> bool {
    name == b"op".as_slice() || name == b"opread".as_slice()
}

/// Whether a row, counted from 1, is one operation more than a script may have.
pub fn is_op_too_many(records: &[ByteRecord], row: usize) -> bool {
    let ops = records
        .iter()
        .take(row)
        .filter(|record| is_op(field(record, 0)))
        .count();
    ops > MOST_OPS
}
