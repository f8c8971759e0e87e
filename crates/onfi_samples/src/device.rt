ghost use Rattle.std.specs.Prelude.{◌≡◌, false, true};

use onfi_addr::Geometry;
use onfi_timing::{Spans, Timing};

/// The geometry of the sample device.
pub fn sample_geometry() -> Geometry
    ensures luns { (result.lun_count ≡ 2) × (result.plane_address_bits ≡ 1) }
    ensures blocks { (result.blocks_per_lun ≡ 1000) × (result.pages_per_block ≡ 64) }
    ensures pages { (result.data_bytes ≡ 512) × (result.spare_bytes ≡ 16) }
    ensures whole_pages { result.sector_bytes ≡ 0 }
    ensures row_bits { (result.page_bits ≡ 6) × (result.block_bits ≡ 10) × (result.lun_bits ≡ 1) }
    ensures cycles { (result.column_address_cycles ≡ 2) × (result.row_address_cycles ≡ 3) }
    ensures in_order { result.any_page_order ≡ false }
    ensures planes_together { (result.multi_plane_writes ≡ true) × (result.multi_plane_reads ≡ true) }
{
    Geometry {
        lun_count: 2,
        plane_address_bits: 1,
        pages_per_block: 64,
        blocks_per_lun: 1000,
        page_bits: 6,
        block_bits: 10,
        lun_bits: 1,
        column_address_cycles: 2,
        row_address_cycles: 3,
        data_bytes: 512,
        spare_bytes: 16,
        sector_bytes: 0,
        any_page_order: false,
        multi_plane_writes: true,
        multi_plane_reads: true,
    }
}

/// The timing of the sample device, in ns.
pub fn sample_timing() -> Timing
    ensures read { (result.read.cmd ≡ 140) × (result.read.gap ≡ 600) × (result.read.array ≡ 25100) × (result.read.post ≡ 11000) }
    ensures program { (result.program.cmd ≡ 10800) × (result.program.gap ≡ 600) × (result.program.array ≡ 200100)
        × (result.program.post ≡ 280) }
    ensures erase { (result.erase.cmd ≡ 100) × (result.erase.gap ≡ 600) × (result.erase.array ≡ 1500100) × (result.erase.post ≡ 280) }
{
    Timing::new(
        Spans {
            cmd: 140,
            gap: 600,
            array: 25_100,
            post: 11_000,
        },
        Spans {
            cmd: 10_800,
            gap: 600,
            array: 200_100,
            post: 280,
        },
        Spans {
            cmd: 100,
            gap: 600,
            array: 1_500_100,
            post: 280,
        },
    )
}
