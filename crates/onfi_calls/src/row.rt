//! Row addresses.
ghost use Rattle.std.specs.Prelude.{◌≡◌, IfOk, IfErr};
ghost use Rattle.onfi_addr.specs.Rows.{IsInRange, row_of};
ghost use Rattle.onfi_calls.specs.Geometry.{GivesRow, IsNoRow, IsRowSaid};

use crate::device::PlainGeometry;
use crate::geometry::geometry_of;
use crate::status::Status;
use onfi_addr::{Geometry, Place};

/// The row address of a page of the device, at most 31 bits.
pub fn row_in(geometry: &Geometry, place: &Place) -> u32
    requires { IsInRange geometry.now place.now }
    ensures { result ≡ row_of geometry.now place.now }
{
    geometry.row(place) as u32
}

/// The same of what is said.
fn row_said(said: &PlainGeometry, place: &Place) -> Result<u32, Status>
    ensures row { IfOk result (λ row. IsRowSaid said.now place.now row) }
    ensures none { IfErr result (λ status. IsNoRow said.now place.now status) }
{
    let Some(geometry) = geometry_of(said) else {
        return Err(Status::BadGeometry);
    };
    if !geometry.is_in_range(place) {
        return Err(Status::BadPlace);
    }
    Ok(row_in(&geometry, place))
}

/// The row address of a page (ONFI 4.2, addressing): the page in the low bits, above it the block, above it the LUN.
///
/// Answers 0; or the number of `BadGeometry`, else of `BadPlace`, and the row address is as it was.
pub fn onfi_row(geometry: &PlainGeometry, lun: u8, block: u16, page: u16, row: &mut u32) -> u32
    ensures { GivesRow geometry.now (record { lun = lun; block = block; page = page }) row.old row.new result }
{
    match row_said(geometry, &Place { lun, block, page }) {
        Ok(told) => {
            *row = told;
            0
        }
        Err(status) => status.number(),
    }
}
