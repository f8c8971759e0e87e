//! The message beside an answer about what a plan doesn't look at in a parameter page.
use crate::fields::{field, number_beyond};
use crate::input::Input;
use crate::place::{line_of, row_text};
use csv::ByteRecord;
use onfi_addr::Geometry;
use onfi_param::read_page;
use onfi_script::{Purpose, Row, page_bytes, page_device, read_rows, script_len};
use onfi_timing::read_records;
use std::alloc::{AllocError, Global};

/// The bytes of one copy of a parameter page.
const PAGE_BYTES: usize = 256;

/// Whether a row of this line may describe a device of the second form.
fn is_of_page(line: &[u8]) -> bool {
    line.starts_with(b"page,")
        || line.starts_with(b"sheet,")
        || line.starts_with(b"strobe,")
        || line.starts_with(b"strict,")
}

/// The rows of a script that give its page, as a script of their own.
fn page_script(alloc: Global, script: &[u8]) -> Result<Vec<u8>, AllocError> {
    let mut text = Vec::new(alloc);
    for line in script.split(|byte| *byte == b'\n') {
        if is_of_page(line) {
            text.extend_from_slice(line)?;
            text.push(b'\n')?;
        }
    }
    text.extend_from_slice(b"end\n")?;
    Ok(text)
}

/// Whether the page that is taken says that its multi-plane operations have block address restrictions (byte 114, bit 1).
fn has_restrictions(bytes: &[u8]) -> bool {
    let page = bytes
        .chunks_exact(PAGE_BYTES)
        .find(|copy| read_page(copy).is_ok());
    match page.and_then(|page| page.get(114)) {
        Some(attributes) => *attributes & 2 == 0,
        None => false,
    }
}

/// Whether blocks may be grouped, and no row says which.
fn may_group(geometry: &Geometry, rows: &[Row]) -> bool {
    let strict = rows.iter().any(|row| matches!(row, Row::Strict { .. }));
    let several = geometry.multi_plane_reads || geometry.multi_plane_writes;
    several && geometry.plane_address_bits > 0 && !strict
}

/// The rows of a page, and the geometry that they give.
fn page_rows(alloc: Global, script: &[u8]) -> Option<(Vec<Row>, Geometry)> {
    let text = page_script(alloc, script).ok()?;
    let rows = read_rows(alloc, Purpose::Problem, text.as_slice()).ok()?;
    let device = page_device(alloc, rows.as_slice()).ok()?;
    Some((rows, device.geometry))
}

/// How many bits number the planes of the device of a script, where it says that.
pub fn plane_bits_in(alloc: Global, input: &Input<'_>) -> Option<u8> {
    let size = script_len(input.text)?;
    let script = &input.text[..size];
    let shape = script
        .split(|byte| *byte == b'\n')
        .find(|line| line.starts_with(b"shape,"));
    match shape {
        Some(row) => bits_of(row),
        None => match page_rows(alloc, script) {
            Some((_, geometry)) => Some(geometry.plane_address_bits),
            None => None,
        },
    }
}

/// The plane bits of a row `shape`.
fn bits_of(row: &[u8]) -> Option<u8> {
    match row.split(|byte| *byte == b',').nth(2) {
        Some(b"0") => Some(0),
        Some(b"1") => Some(1),
        Some(b"2") => Some(2),
        _ => None,
    }
}

/// Appends to a message what is to be said of the rows that name blocks or pages beyond the device.
fn push_beyond(
    alloc: Global,
    message: &mut String,
    input: &Input<'_>,
    script: &[u8],
    geometry: &Geometry,
) -> Result<(), AllocError> {
    let records = read_records(alloc, script)?;
    let name = input.script_name();
    for (at, record) in records.iter().enumerate() {
        if let Some((what, count)) = find_beyond(record, geometry) {
            let (row, line, text) = (
                at.saturating_add(1),
                line_of(input.text, record),
                row_text(alloc, record)?,
            );
            let told = format!(in alloc;
                "onfi_sim: {name}:{line}: row {row} '{text}': {what} {count}, counted from 0; it is planned all the same\n"
            )?;
            message.push_str(told.as_str())?;
        }
    }
    Ok(())
}

/// What of a request or a running group lies beyond the device.
fn find_beyond(record: &ByteRecord, geometry: &Geometry) -> Option<(&'static str, u64)> {
    let name = field(record, 0);
    if name != b"want".as_slice() && name != b"running".as_slice() {
        return None;
    }
    let (blocks, pages) = (
        u64::from(geometry.blocks_per_lun),
        u64::from(geometry.pages_per_block),
    );
    if number_beyond(record, "BLOCK", blocks) {
        Some(("the blocks of a LUN of this page are", blocks))
    } else if number_beyond(record, "PAGE", pages) {
        Some(("the pages of a block of this page are", pages))
    } else {
        None
    }
}

/// Appends to a message what is to be said of the page of a script.
///
/// # Errors
/// Where memory was refused.
pub fn push_cautions(
    alloc: Global,
    purpose: Purpose,
    message: &mut String,
    input: &Input<'_>,
) -> Result<(), AllocError> {
    let Some(size) = script_len(input.text) else {
        return Ok(());
    };
    let script = &input.text[..size];
    let Some((rows, geometry)) = page_rows(alloc, script) else {
        return Ok(());
    };
    let bytes = page_bytes(alloc, rows.as_slice())?;
    if may_group(&geometry, rows.as_slice()) && has_restrictions(bytes.as_slice()) {
        let name = input.script_name();
        let told = format!(in alloc;
            "onfi_sim: {name}: the page says that blocks of a multi-plane operation are restricted (bit 1 of byte 114 is 0), and plans don't look at that; write a row 'strict,1', or 'strict,0' where they aren't\n"
        )?;
        message.push_str(told.as_str())?;
    }
    if let Purpose::Problem = purpose {
        push_beyond(alloc, message, input, script, &geometry)?;
    }
    Ok(())
}
