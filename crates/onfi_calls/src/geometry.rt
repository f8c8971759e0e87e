//! From what a caller says to the geometry of a device.
ghost use Rattle.std.specs.Prelude.{◌≡◌, ◌≤◌, ◌*◌, ◌^◌, ◌↔◌, IsTrue, IfSome, IfNone};
ghost use Rattle.onfi_addr.specs.Bits.{IsBitCount};
ghost use Rattle.onfi_calls.specs.Device.{written_geometry};
ghost use Rattle.onfi_calls.specs.Geometry as spec;

use crate::device::PlainGeometry;
use onfi_addr::Geometry;

/// Whether so many bits, and no fewer, distinguish so many things.
fn is_bit_count(count: u32, bits: u32) -> bool
    requires { bits ≤ 16 }
    ensures { IsTrue result ↔ IsBitCount count bits }
{
    count <= 1 << bits && (bits == 0 || count > 1 << (bits - 1))
}

/// Whether each count is in its range.
fn are_counts(said: &PlainGeometry) -> bool
    ensures { IsTrue result ↔ spec.AreCounts said.now }
{
    1 <= said.lun_count
        && said.lun_count <= 8
        && said.plane_address_bits <= 2
        && 1 <= said.pages_per_block
        && said.pages_per_block <= 4096
        && 1 <= said.blocks_per_lun
        && said.blocks_per_lun <= 65536
}

/// Whether the bits of row addresses are those of the counts, and fit the row address cycles.
fn are_row_bits(said: &PlainGeometry) -> bool
    ensures { IsTrue result ↔ spec.AreRowBits said.now }
{
    said.page_bits <= 12
        && said.block_bits <= 16
        && said.lun_bits <= 3
        && is_bit_count(u32::from(said.pages_per_block), said.page_bits)
        && is_bit_count(said.blocks_per_lun, said.block_bits)
        && is_bit_count(u32::from(said.lun_count), said.lun_bits)
        && said.row_address_cycles <= 15
        && said.page_bits + said.block_bits + said.lun_bits
            <= 8 * u32::from(said.row_address_cycles)
}

/// Whether so many address cycles reach all bytes of a page.
fn reach(cycles: u8, bytes: u32) -> bool
    requires { bytes ≤ 65535 }
    ensures { IsTrue result ↔ (bytes ≤ 2 ^ (8 * cycles)) }
{
    cycles >= 2 || bytes <= 1 << (8 * cycles)
}

/// Whether a page has some bytes, and they fit the column address cycles.
fn are_columns(said: &PlainGeometry) -> bool
    ensures { IsTrue result ↔ spec.AreColumns said.now }
{
    let bytes = u32::from(said.data_bytes) + u32::from(said.spare_bytes);
    1 <= said.data_bytes
        && bytes <= 65535
        && said.column_address_cycles <= 15
        && reach(said.column_address_cycles, bytes)
}

/// The geometry of numbers that are in their ranges.
pub fn read(said: &PlainGeometry) -> Geometry
    requires counts { spec.AreCounts said.now }
    requires bits { spec.AreRowBits said.now }
    requires columns { spec.AreColumns said.now }
    ensures { said.now ≡ written_geometry result }
{
    Geometry {
        lun_count: said.lun_count,
        plane_address_bits: said.plane_address_bits,
        pages_per_block: said.pages_per_block,
        blocks_per_lun: said.blocks_per_lun,
        page_bits: said.page_bits,
        block_bits: said.block_bits,
        lun_bits: said.lun_bits,
        column_address_cycles: said.column_address_cycles,
        row_address_cycles: said.row_address_cycles,
        data_bytes: said.data_bytes,
        spare_bytes: said.spare_bytes,
        sector_bytes: 0,
        any_page_order: said.any_page_order,
        multi_plane_writes: said.multi_plane_writes,
        multi_plane_reads: said.multi_plane_reads,
    }
}

/// The geometry that is said, if it is one.
pub fn geometry_of(said: &PlainGeometry) -> Option<Geometry>
    ensures some { IfSome result (λ geometry. said.now ≡ written_geometry geometry) }
    ensures none { IfNone result (spec.IsNoGeometry said.now) }
{
    if are_counts(said) && are_row_bits(said) && are_columns(said) {
        return Some(read(said));
    }
    None
}
