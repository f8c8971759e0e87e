//! The rows that are taken for a run alone.
ghost use Rattle.std.specs.Prelude.{◌≡◌};
ghost use Rattle.csv.specs.Records.{fields_of};
ghost use Rattle.onfi_script.specs.Field.{number as number_of};
ghost use Rattle.onfi_script.specs.RunRow as spec;
ghost use Rattle.onfi_script.specs.Stop.{Gives, IfFault};

use crate::count::Count;
use crate::fault::{RowStop, ScriptFault};
use crate::field::{
    block, field, first_sector, hex_bytes, is_word, kind, lun, number, page, read_small, read_span,
    some_sectors,
};
use crate::operation::{Aim, Content, Operation};
use crate::row::Row;
use csv::ByteRecord;
use onfi_addr::Place;
use onfi_request::{Bytes, Fault};
use onfi_timing::Kind;
use std::alloc::Global;

/// A count, 1 to `MOST`.
fn count<const MOST: u16>(text: &[u8]) -> Result<Count<MOST>, ScriptFault>
    ensures { result ≡ number_of 1 MOST text.now }
{
    let count = number(text, 1, u64::from(MOST))?;
    Ok(Count::of(count as u16))
}

/// The number of a call, from 0.
fn call_number(text: &[u8]) -> Result<u32, ScriptFault>
    ensures { result ≡ spec.call_number text.now }
{
    let number = number(text, 0, u64::from(u32::MAX))?;
    Ok(number as u32)
}

/// The number of a channel or a host, from 0.
fn end_number(text: &[u8]) -> Result<u8, ScriptFault>
    ensures { result ≡ spec.end_number text.now }
{
    read_small(text, 0, 3)
}

/// `channels,N`
pub fn channels_row(row: &ByteRecord) -> Result<Row, ScriptFault>
    ensures { result ≡ spec.channels_row (fields_of row.now) }
{
    let count = count(field(row, 1))?;
    Ok(Row::Channels { count })
}

/// `hosts,N`
pub fn hosts_row(row: &ByteRecord) -> Result<Row, ScriptFault>
    ensures { result ≡ spec.hosts_row (fields_of row.now) }
{
    let count = count(field(row, 1))?;
    Ok(Row::Hosts { count })
}

/// `batch,N`
pub fn batch_row(row: &ByteRecord) -> Result<Row, ScriptFault>
    ensures { result ≡ spec.batch_row (fields_of row.now) }
{
    let count = count(field(row, 1))?;
    Ok(Row::Batch { count })
}

/// `submitcap,N`
pub fn submit_cap_row(row: &ByteRecord) -> Result<Row, ScriptFault>
    ensures { result ≡ spec.submit_cap_row (fields_of row.now) }
{
    let count = count(field(row, 1))?;
    Ok(Row::SubmitCap { count })
}

/// `postcap,N`
pub fn post_cap_row(row: &ByteRecord) -> Result<Row, ScriptFault>
    ensures { result ≡ spec.post_cap_row (fields_of row.now) }
{
    let count = count(field(row, 1))?;
    Ok(Row::PostCap { count })
}

/// `chipfail,CHANNEL,N`
pub fn chip_fail_row(row: &ByteRecord) -> Result<Row, ScriptFault>
    ensures { result ≡ spec.chip_fail_row (fields_of row.now) }
{
    let channel = end_number(field(row, 1))?;
    let number = call_number(field(row, 2))?;
    Ok(Row::ChipFail { channel, number })
}

/// `notready,CHANNEL,N`
pub fn not_ready_row(row: &ByteRecord) -> Result<Row, ScriptFault>
    ensures { result ≡ spec.not_ready_row (fields_of row.now) }
{
    let channel = end_number(field(row, 1))?;
    let number = call_number(field(row, 2))?;
    Ok(Row::NotReady { channel, number })
}

/// `fault,CHANNEL,LUN,BLOCK,N`
pub fn fault_row(row: &ByteRecord) -> Result<Row, ScriptFault>
    ensures { result ≡ spec.fault_row (fields_of row.now) }
{
    let channel = end_number(field(row, 1))?;
    let lun = lun(field(row, 2))?;
    let block = block(field(row, 3))?;
    let number = call_number(field(row, 4))?;
    Ok(Row::Fault {
        channel,
        fault: Fault { lun, block, number },
    })
}

/// `array,CHANNEL,LUN,NUMBER,NS`
pub fn array_row(row: &ByteRecord) -> Result<Row, ScriptFault>
    ensures { result ≡ spec.array_row (fields_of row.now) }
{
    let channel = end_number(field(row, 1))?;
    let lun = lun(field(row, 2))?;
    let number = call_number(field(row, 3))?;
    let length = read_span(field(row, 4), 0)?;
    Ok(Row::Array {
        channel,
        lun,
        number,
        length,
    })
}

/// `at,NS`, after a moment of arrival.
pub fn at_row(before: u64, row: &ByteRecord) -> Result<Row, ScriptFault>
    ensures { result ≡ spec.at_row before (fields_of row.now) }
{
    let moment = number(field(row, 1), before, (1 << 62) - 1)?;
    Ok(Row::At { moment })
}

/// The only one of the bytes.
fn only(bytes: &[u8]) -> Result<u8, ScriptFault>
    ensures { result ≡ spec.only bytes.now }
{
    match bytes.split_first() {
        Some((byte, rest)) if rest.is_empty() => Ok(*byte),
        _ => Err(ScriptFault::Hex),
    }
}

/// A page of one byte, `*HH`, without the star.
fn fill_page(alloc: Global, digits: &[u8]) -> Result<Content, RowStop>
    ensures { Gives IfFault (λ content. content) result (spec.filled digits.now) }
{
    let bytes = hex_bytes(alloc, digits)?;
    let byte = only(bytes.as_slice())?;
    Ok(Content::Filled(byte))
}

/// A whole page in hexadecimal, or `*HH` for a page of one byte; nothing is no bytes.
fn content(alloc: Global, text: &[u8]) -> Result<Content, RowStop>
    ensures { Gives IfFault (λ content. content) result (spec.content text.now) }
{
    match text.split_first() {
        Some((mark, digits)) if *mark == b'*' => fill_page(alloc, digits),
        _ => Ok(Content::Given(Bytes::of(hex_bytes(alloc, text)?))),
    }
}

/// Who asks which channel for what.
fn read_op_aim(row: &ByteRecord) -> Result<Aim, ScriptFault>
    ensures { result ≡ spec.aim (fields_of row.now) }
{
    let host = end_number(field(row, 1))?;
    let channel = end_number(field(row, 2))?;
    let kind = kind(field(row, 3))?;
    let lun = lun(field(row, 4))?;
    let block = block(field(row, 5))?;
    let page = page(field(row, 6))?;
    Ok(Aim {
        host,
        channel,
        kind,
        place: Place { lun, block, page },
    })
}

/// `op,HOST,CHANNEL,KIND,LUN,BLOCK,PAGE`, and the bytes of a program after it.
pub fn op_row(alloc: Global, row: &ByteRecord) -> Result<Row, RowStop>
    ensures { Gives IfFault (λ r. r) result (spec.op_row (fields_of row.now)) }
{
    let aim = read_op_aim(row)?;
    let content = content(alloc, field(row, 7))?;
    Ok(Row::Op(Operation { aim, content }))
}

/// Who reads some sectors of a page of which channel.
fn read_aim(row: &ByteRecord) -> Result<Aim, ScriptFault>
    ensures { result ≡ spec.read_aim (fields_of row.now) }
{
    let host = end_number(field(row, 1))?;
    let channel = end_number(field(row, 2))?;
    let lun = lun(field(row, 3))?;
    let block = block(field(row, 4))?;
    let page = page(field(row, 5))?;
    let first = first_sector(field(row, 6))?;
    let count = some_sectors(field(row, 7))?;
    Ok(Aim {
        host,
        channel,
        kind: Kind::ReadSectors { first, count },
        place: Place { lun, block, page },
    })
}

/// `opread,HOST,CHANNEL,LUN,BLOCK,PAGE,FIRST,COUNT`
pub fn op_read_row(alloc: Global, row: &ByteRecord) -> Result<Row, ScriptFault>
    ensures { result ≡ spec.op_read_row (fields_of row.now) }
{
    let aim = read_aim(row)?;
    let content = Content::Given(Bytes::of(Vec::new(alloc)));
    Ok(Row::Op(Operation { aim, content }))
}
