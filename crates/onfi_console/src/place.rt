//! Where rows of a script stand, and how they are shown.
use crate::escaping::escape_bytes;
use crate::input::lines_in;
use csv::ByteRecord;
use std::alloc::{AllocError, Global};

/// The line of the file, counted from 1, in which a record begins.
pub fn line_of(text: &[u8], record: &ByteRecord) -> usize {
    let byte = match record.position() {
        Some(position) => position.byte() as usize,
        None => 0,
    };
    let behind = text.get(byte..).unwrap_or(b"");
    let empty = behind
        .iter()
        .take_while(|byte| **byte == b'\n' || **byte == b'\r')
        .count();
    let before = text.get(..byte.saturating_add(empty)).unwrap_or(b"");
    lines_in(before).saturating_add(1)
}

/// The fields of a record as a script has them.
///
/// # Errors
/// Where memory was refused.
pub fn row_text(alloc: Global, record: &ByteRecord) -> Result<String, AllocError> {
    let mut bytes = Vec::new(alloc);
    for (at, field) in record.iter().enumerate() {
        if at > 0 {
            bytes.push(b',')?;
        }
        bytes.extend_from_slice(field)?;
    }
    escape_bytes(alloc, bytes.as_slice())
}
