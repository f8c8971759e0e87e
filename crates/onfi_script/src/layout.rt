//! The geometry of a device, of the first form and with sectors.
ghost use Rattle.std.specs.Prelude.{◌≡◌, ◌≤◌};
ghost use Rattle.csv.specs.Records.{fields_of};
ghost use Rattle.onfi_addr.specs.Bits.{IsBitCount};
ghost use Rattle.onfi_script.specs.Layout.{IsLaidOut, with_sectors as spec_with_sectors};
ghost use Rattle.onfi_script.specs.RunRow as spec;

use crate::device_row::ShapeRow;
use crate::fault::ScriptFault;
use crate::field::{field, flag, number};
use crate::row::Row;
use csv::ByteRecord;
use onfi_addr::Geometry;
use std::marker::Model;

/// What a run asks of a device of the first form beside its shape.
#[derive(Drop)]
pub struct GeometryRow {
    blocks: u32,
    pages: u16,
    bytes: u16,
    any_order: bool,
}

impl Model for GeometryRow {
    ghost use Rattle.std.specs.Prelude.{◌≤◌};
    ghost use Rattle.onfi_script.specs.RowParts.{GeometryRow as Said};

    ghost Value = { Said };

    ghost view = { λ r. record { blocks = r.blocks; pages = r.pages; bytes = r.bytes; any_order = r.any_order } };

    ghost invariant = { λ r. (1 ≤ r.blocks) × (r.blocks ≤ 65536) × (1 ≤ r.pages) × (r.pages ≤ 4096) × (1 ≤ r.bytes) × (r.bytes ≤ 65535) };
}

/// `geometry,BLOCKS,PAGES,BYTES,ANYORDER`
pub fn geometry_row(row: &ByteRecord) -> Result<Row, ScriptFault>
    ensures { result ≡ spec.geometry_row (fields_of row.now) }
{
    let blocks = number(field(row, 1), 1, 65_536)?;
    let pages = number(field(row, 2), 1, 4_096)?;
    let bytes = number(field(row, 3), 1, 65_535)?;
    let any_order = flag(field(row, 4))?;
    Ok(Row::Geometry(GeometryRow {
        blocks: blocks as u32,
        pages: pages as u16,
        bytes: bytes as u16,
        any_order,
    }))
}

/// The least number of bits that distinguish that many things.
fn bits_for(count: u32) -> u32
    ensures least { IsBitCount count result }
    ensures below { result ≤ 32 }
{
    if count < 2 {
        0
    } else {
        (count - 1).ilog2() + 1
    }
}

impl GeometryRow {
    /// The geometry with the LUNs, planes and groups of that shape. All bytes of a page are data, read as a whole; rows have four address
    /// cycles and columns two, which each such device fits.
    pub fn geometry(&self, shape: &ShapeRow) -> Geometry
        ensures { IsLaidOut shape.now self.now result }
    {
        Geometry {
            lun_count: shape.luns(),
            plane_address_bits: shape.plane_bits(),
            pages_per_block: self.pages,
            blocks_per_lun: self.blocks,
            page_bits: bits_for(u32::from(self.pages)),
            block_bits: bits_for(self.blocks),
            lun_bits: bits_for(u32::from(shape.luns())),
            column_address_cycles: 2,
            row_address_cycles: 4,
            data_bytes: self.bytes,
            spare_bytes: 0,
            sector_bytes: 0,
            any_page_order: self.any_order,
            multi_plane_writes: shape.write(),
            multi_plane_reads: shape.read(),
        }
    }
}

/// The geometry with sectors of that many bytes, where a sector has any and a page as many.
pub fn with_sectors(geometry: Geometry, bytes: u16) -> Geometry
    ensures { result ≡ spec_with_sectors bytes geometry }
{
    geometry.with_sector_bytes(bytes).unwrap_or(geometry)
}
