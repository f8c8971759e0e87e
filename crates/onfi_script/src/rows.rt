//! The rows of a script, read from the top.
ghost use Rattle.std.specs.Prelude.{◌≡◌, [], ◌∷◌, ◌++◌, map, IsTrue, OnOk};
ghost use Rattle.std.specs.List.{list_any};
ghost use Rattle.csv.specs.Records.{fields_of};
ghost use Rattle.onfi_script.specs.ArraysTold.{AreTold};
ghost use Rattle.onfi_script.specs.Rows as spec;
ghost use Rattle.onfi_script.specs.RowName.{has_fields};
ghost use Rattle.onfi_script.specs.Stop.{Gives, IfFault, IfRefused};
ghost use Rattle.onfi_script.specs.Subject.{settles, subject_of};

use crate::arrays_told::ArraysTold;
use crate::device_row::{page_row, shape_row, sheet_row, spans_row, strobe_row};
use crate::fault::{RowStop, ScriptFault, Stop};
use crate::field::field;
use crate::layout::geometry_row;
use crate::problem_row::{bus_row, free_row, running_row, strict_row, want_row, weight_row};
use crate::purpose::Purpose;
use crate::row::{Row, Subject};
use crate::row_name::RowName;
use crate::run_row::{
    array_row, at_row, batch_row, channels_row, chip_fail_row, fault_row, hosts_row, not_ready_row,
    op_read_row, op_row, post_cap_row, submit_cap_row,
};
use crate::sector_row::{run_sectors_row, sector_post_row, sector_row, sectors_row};
use crate::seen::Seen;
use csv::ByteRecord;
use std::alloc::{AllocError, Global};

/// What row number `number` says, after rows that show that much.
fn read_row(
    alloc: Global,
    name: RowName,
    seen: &Seen,
    number: usize,
    fields: &ByteRecord,
) -> Result<Row, RowStop>
    requires { IsTrue (has_fields name (fields_of fields.now)) }
    ensures { Gives IfFault (λ row. row) result (spec.said name seen.now number (fields_of fields.now)) }
{
    match name {
        RowName::Shape => Ok(shape_row(fields)?),
        RowName::Spans => Ok(spans_row(fields)?),
        RowName::Page => page_row(alloc, fields),
        RowName::Sheet => Ok(sheet_row(&seen.sheet, number, fields)?),
        RowName::Strobe => Ok(strobe_row(seen.strobes, number, fields)?),
        RowName::Bus => Ok(bus_row(fields)?),
        RowName::Free => Ok(free_row(fields)?),
        RowName::Running => Ok(running_row(alloc, fields)?),
        RowName::Want => Ok(want_row(fields)?),
        RowName::Weight => Ok(weight_row(fields)?),
        RowName::SectorPost => Ok(sector_post_row(fields)?),
        RowName::Sector => Ok(sector_row(fields)?),
        RowName::Sectors => Ok(sectors_row(fields)?),
        RowName::RunSectors => Ok(run_sectors_row(alloc, fields)?),
        RowName::Strict => Ok(strict_row(fields)?),
        RowName::Channels => Ok(channels_row(fields)?),
        RowName::Hosts => Ok(hosts_row(fields)?),
        RowName::Batch => Ok(batch_row(fields)?),
        RowName::SubmitCap => Ok(submit_cap_row(fields)?),
        RowName::PostCap => Ok(post_cap_row(fields)?),
        RowName::Op => op_row(alloc, fields),
        RowName::OpRead => Ok(op_read_row(alloc, fields)?),
        RowName::Fault => Ok(fault_row(fields)?),
        RowName::ChipFail => Ok(chip_fail_row(fields)?),
        RowName::NotReady => Ok(not_ready_row(fields)?),
        RowName::Array => Ok(array_row(fields)?),
        RowName::At => Ok(at_row(seen.moment, fields)?),
        RowName::Geometry => Ok(geometry_row(fields)?),
    }
}

/// Whether one of the rows settles that.
fn any_settles(rows: &[Row], subject: Subject) -> bool
    ensures { result ≡ list_any (settles subject) rows.now }
{
    rows.iter().any(|row| row.settles(subject))
}

/// Whether an earlier row settles the same. All but operations of arrays are few, so that one of many rows is soon a second.
fn is_settled(row: &Row, arrays: &ArraysTold, earlier: &[Row]) -> bool
    requires { AreTold earlier.now arrays.now.names.keys }
    ensures { result ≡ spec.is_settled (subject_of row.now) earlier.now }
{
    match row.subject() {
        Some(
            Subject::Array {
                channel,
                lun,
                number,
            },
        ) => arrays.has(channel, lun, number),
        Some(subject) => any_settles(earlier, subject),
        None => false,
    }
}

/// The row, where no earlier row settles the same, and where an operation may come yet.
fn admit_row(ops_left: u16, arrays: &ArraysTold, earlier: &[Row], row: Row) -> Result<Row, RowStop>
    requires { AreTold earlier.now arrays.now.names.keys }
    ensures { Gives IfFault (λ r. r) result (spec.admitted ops_left earlier.now row) }
{
    if is_settled(&row, arrays, earlier) {
        Err(RowStop::Fault(ScriptFault::Repeated))
    } else if row.is_op() && ops_left == 0 {
        Err(RowStop::Fault(ScriptFault::OutOfRange))
    } else {
        Ok(row)
    }
}

/// What a row says after these earlier ones, which show that much.
fn row_of(
    alloc: Global,
    purpose: Purpose,
    seen: &Seen,
    arrays: &ArraysTold,
    earlier: &[Row],
    fields: &ByteRecord,
) -> Result<Row, RowStop>
    requires { AreTold earlier.now arrays.now.names.keys }
    ensures { Gives IfFault (λ row. row) result (spec.row_of purpose seen.now earlier.now (fields_of fields.now)) }
{
    let Some(name) = RowName::of(field(fields, 0)) else {
        return Err(RowStop::Fault(ScriptFault::UnknownRow));
    };
    if !(name.is_taken(purpose) && name.stands(purpose, seen.form)) {
        return Err(RowStop::Fault(ScriptFault::NotHere));
    }
    if !name.has_fields(fields) {
        return Err(RowStop::Fault(ScriptFault::FieldCount));
    }
    let row = read_row(alloc, name, seen, earlier.len() + 1, fields)?;
    admit_row(seen.ops_left, arrays, earlier, row)
}

/// Keeps a row after the others, and with it the operation of an array that it names.
fn keep(rows: &mut Vec<Row>, arrays: &mut ArraysTold, row: Row) -> Result<(), AllocError>
    ensures rows { OnOk result (rows.new.items ≡ rows.old.items ++ row ∷ []) }
    ensures arrays { OnOk result (AreTold rows.old.items arrays.old.names.keys → AreTold rows.new.items arrays.new.names.keys) }
{
    arrays.put(&row)?;
    rows.push(row)?;
    Ok(())
}

/// All rows, or the first that is refused.
#[tactic(auto, unfolding(crate::specs::Rows::rows_after))]
pub fn rows(alloc: Global, purpose: Purpose, records: &[ByteRecord]) -> Result<Vec<Row>, Stop>
    ensures { Gives IfRefused (λ v. v.items) result (spec.rows_of purpose (map fields_of records.now)) }
{
    let mut rows = Vec::new(alloc);
    let mut seen = Seen::nothing();
    let mut arrays = ArraysTold::new(alloc);
    for (at, record) in records.iter().enumerate() {
        match row_of(alloc, purpose, &seen, &arrays, rows.as_slice(), record) {
            Ok(row) => {
                seen = seen.after(&row);
                if let Err(AllocError) = keep(&mut rows, &mut arrays, row) {
                    return Err(Stop::Memory);
                }
            }
            Err(stop) => return Err(stop.at(at as u64 + 1)),
        }
    }
    Ok(rows)
}
