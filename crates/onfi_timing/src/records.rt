//! Rows of text.
ghost use Rattle.std.specs.Prelude.{◌≡◌, map, IfOk};
ghost use Rattle.csv.specs.Reading.{AreRecords, default_config, strip_bom};
ghost use Rattle.csv.specs.Records.{fields_of};
ghost use Rattle.csv.specs.declared.parser.State.TheVariants as st;
ghost use Rattle.onfi_timing.specs.Record.{field as field_in};

use csv::{ByteRecord, Error, ReaderBuilder};
use std::alloc::{AllocError, Global};

// A field of a row; nothing where the row is shorter.
pub(crate) fn field(row: &ByteRecord, at: usize) -> &[u8]
    ensures { result.now ≡ field_in (fields_of row.now) at }
{
    row.get(at).unwrap_or(b"")
}

/// Every row of a text: fields stand between commas, rows between line ends, and all may be quoted. Rows need no equal
/// count of fields, and bytes need not be UTF-8.
///
/// # Errors
/// Only where memory was refused.
pub fn read_records(alloc: Global, text: &[u8]) -> Result<Vec<ByteRecord>, AllocError>
    ensures { IfOk result (λ v. AreRecords default_config st.StartRecord (strip_bom text.now) (map fields_of v.items)) }
{
    match records(alloc, text) {
        Ok(records) => Ok(records),
        Err(_) => Err(AllocError),
    }
}

// The same, with what `csv` says where memory was refused.
fn records(alloc: Global, text: &[u8]) -> Result<Vec<ByteRecord>, Error>
    ensures { IfOk result (λ v. AreRecords default_config st.StartRecord (strip_bom text.now) (map fields_of v.items)) }
{
    let rdr = ReaderBuilder::new()
        .has_headers(false)
        .flexible(true)
        .from_reader(alloc, text);
    let mut rows = Vec::new(alloc);
    for row in rdr.into_byte_records() {
        if rows.push(row?).is_err() {
            return Err(Error::out_of_memory());
        }
    }
    Ok(rows)
}
