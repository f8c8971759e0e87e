ghost use Rattle.std.specs.Prelude.{◌≡◌, ◌≢◌, ◌↔◌, ℕ, ◌+◌, ◌*◌, ◌/◌, ◌%◌, ◌^◌, ◌<◌, ◌≤◌, IsTrue, IfErr, IfOk, IfNone, IfSome, slice_index};
ghost use Rattle.onfi_addr.specs.Bits.{IsBitCount};

use crate::bits::{bits_for, low_bits, shift_up};
use crate::fault::GeometryFault;
use crate::judging::first_fault;
use crate::place::Place;
use crate::plane::plane_at;
use onfi_param::ParamPage;

/// What of a device's parameter page its addressing and its scheduling rest on (ONFI 4.2, addressing; features).
///
/// Each value is in the range that its ghost fields say. The bit counts are those of row addresses: the least with
/// `2^page_bits` at least the pages of a block, and so for blocks and LUNs.
#[derive(Clone, Copy, Debug, PartialEq, Eq)]
pub struct Geometry {
    /// LUNs of the device, 1 to 8.
    pub lun_count: u8,
    /// Plane address bits, 0 to 2: a LUN has `2^plane_address_bits` planes.
    pub plane_address_bits: u8,
    /// Pages of a block, 1 to 4,096.
    pub pages_per_block: u16,
    /// Blocks of a LUN, 1 to 65,536.
    pub blocks_per_lun: u32,
    /// Bits of a page number in a row address, at most 12.
    pub page_bits: u32,
    /// Bits of a block number in a row address, at most 16.
    pub block_bits: u32,
    /// Bits of a LUN number in a row address, at most 3.
    pub lun_bits: u32,
    /// Column address cycles, 0 to 15.
    pub column_address_cycles: u8,
    /// Row address cycles, 0 to 15.
    pub row_address_cycles: u8,
    /// Data bytes of a page, at least 1.
    pub data_bytes: u16,
    /// Spare bytes of a page; with the data bytes at most 65,535.
    pub spare_bytes: u16,
    /// Bytes of a sector, of which a read may put out as many as lie on a page; 0 where pages are read as a whole alone.
    pub sector_bytes: u16,
    /// Whether the pages of a block may be programmed in any order (features, bit 2).
    pub any_page_order: bool,
    /// Whether several planes may program or erase at the same time (features, bit 3).
    pub multi_plane_writes: bool,
    /// Whether several planes may read at the same time (features, bit 6).
    pub multi_plane_reads: bool,
    ghost some_lun: { 1 ≤ lun_count },
    ghost few_luns: { lun_count ≤ 8 },
    ghost few_planes: { plane_address_bits ≤ 2 },
    ghost some_page: { 1 ≤ pages_per_block },
    ghost few_pages: { pages_per_block ≤ 4096 },
    ghost some_block: { 1 ≤ blocks_per_lun },
    ghost few_blocks: { blocks_per_lun ≤ 65536 },
    ghost few_page_bits: { page_bits ≤ 12 },
    ghost few_block_bits: { block_bits ≤ 16 },
    ghost few_lun_bits: { lun_bits ≤ 3 },
    ghost least_page_bits: { IsBitCount pages_per_block page_bits },
    ghost least_block_bits: { IsBitCount blocks_per_lun block_bits },
    ghost least_lun_bits: { IsBitCount lun_count lun_bits },
    ghost few_column_cycles: { column_address_cycles ≤ 15 },
    ghost few_row_cycles: { row_address_cycles ≤ 15 },
    ghost rows_fit: { page_bits + block_bits + lun_bits ≤ 8 * row_address_cycles },
    ghost some_data: { 1 ≤ data_bytes },
    ghost few_bytes: { data_bytes + spare_bytes ≤ 65535 },
    ghost columns_fit: { data_bytes + spare_bytes ≤ 2 ^ (8 * column_address_cycles) },
}

impl Geometry {
    ghost use Rattle.onfi_addr.specs.Faults.{IsFirstFault, NoFault};
    ghost use Rattle.onfi_addr.specs.Layout.{IsGeometryOf};
    ghost use Rattle.onfi_addr.specs.Limits.{IsWithinLimits};
    ghost use Rattle.onfi_addr.specs.Sectors.{IsSectorSize};
    ghost use Rattle.onfi_addr.specs.Rows.{IsInRange, page_bytes_of, plane_of_block, row_of};
    ghost use Rattle.onfi_addr.specs.declared.fault.GeometryFault.{GeometryFault};
    ghost use Rattle.onfi_addr.specs.declared.place.Place.{Place};

    /// The geometry of a device by its parameter page. Its reads put out pages as a whole.
    ///
    /// # Errors
    /// The first fault of the page in the order of [`GeometryFault`].
    pub fn of(page: &ParamPage) -> Result<Geometry, GeometryFault>
        ensures taken { IfOk result (λ geometry. NoFault page.now × IsGeometryOf page.now geometry) }
        ensures refused { IfErr result (λ fault. IsFirstFault page.now fault) }
        ensures exactly { (fault : GeometryFault) → IsFirstFault page.now fault → result ≡ Err fault }
    {
        match first_fault(page) {
            Some(fault) => Err(fault),
            None => Ok(Geometry::layout_of(page)),
        }
    }

    fn layout_of(page: &ParamPage) -> Geometry
        requires { IsWithinLimits page.now }
        ensures { IsGeometryOf page.now result }
    {
        Geometry {
            lun_count: page.lun_count(),
            plane_address_bits: page.plane_address_bits(),
            pages_per_block: page.pages_per_block() as u16,
            blocks_per_lun: page.blocks_per_lun(),
            page_bits: bits_for(page.pages_per_block()),
            block_bits: bits_for(page.blocks_per_lun()),
            lun_bits: bits_for(u32::from(page.lun_count())),
            column_address_cycles: page.column_cycles(),
            row_address_cycles: page.row_cycles(),
            data_bytes: page.data_bytes() as u16,
            spare_bytes: page.spare_bytes(),
            sector_bytes: 0,
            any_page_order: page.has_non_sequential_programming(),
            multi_plane_writes: page.has_multi_plane_program_and_erase(),
            multi_plane_reads: page.has_multi_plane_read(),
        }
    }

    /// The same device, whose reads may put out sectors of so many bytes; `None` where a page has fewer, or a sector none.
    pub fn with_sector_bytes(self, bytes: u16) -> Option<Geometry>
        ensures some { IfSome result (λ geometry. IsSectorSize self bytes × (geometry ≡ record self { sector_bytes = bytes })) }
        ensures none { IfNone result (¬ IsSectorSize self bytes) }
    {
        if bytes == 0 || bytes > self.page_bytes() {
            return None;
        }
        let mut geometry = self;
        geometry.sector_bytes = bytes;
        Some(geometry)
    }

    /// The bytes of a page: its data bytes and its spare bytes.
    pub fn page_bytes(&self) -> u16
        ensures { result ≡ page_bytes_of self.now }
    {
        self.data_bytes + self.spare_bytes
    }

    /// Whether the place is a page of the device.
    pub fn is_in_range(&self, place: &Place) -> bool
        ensures { IsTrue result ↔ IsInRange self.now place.now }
    {
        place.lun < self.lun_count
            && u32::from(place.block) < self.blocks_per_lun
            && place.page < self.pages_per_block
    }

    /// The row address of a place (ONFI 4.2, addressing): the page in the low bits, above it the block, above it the LUN.
    ///
    /// That of a place in range fits the row address cycles.
    pub fn row(&self, place: &Place) -> u64
        ensures value { result ≡ row_of self.now place.now }
        ensures fits { IsInRange self.now place.now → result < 2 ^ (8 * self.now.row_address_cycles) }
    {
        let block = shift_up(place.block, self.page_bits);
        let lun = shift_up(u16::from(place.lun), self.page_bits + self.block_bits);
        u64::from(place.page) + block + lun
    }

    /// The place in range with this row address; `None` exactly where there is none.
    pub fn unrow(&self, row: u64) -> Option<Place>
        ensures found { IfSome result (λ place. IsInRange self.now place × (row_of self.now place ≡ row)) }
        ensures none { IfNone result ((place : Place) → IsInRange self.now place → row_of self.now place ≢ row) }
        ensures undone { (place : Place) → IsInRange self.now place → row_of self.now place ≡ row → result ≡ Some place }
    {
        let page = low_bits(row, self.page_bits);
        let block = low_bits(row >> self.page_bits, self.block_bits);
        let lun = row >> (self.page_bits + self.block_bits);
        if lun >= u64::from(self.lun_count)
            || block >= u64::from(self.blocks_per_lun)
            || page >= u64::from(self.pages_per_block)
        {
            return None;
        }
        Some(Place {
            lun: lun as u8,
            block: block as u16,
            page: page as u16,
        })
    }

    /// The plane of a block: the low bits of its number, as many as there are plane address bits.
    pub fn plane_of(&self, block: u16) -> u8
        ensures { result ≡ plane_of_block self.now block }
    {
        plane_at(self.plane_address_bits, block)
    }

    /// The bytes of a row address, the least significant first: the row address cycles are the first of them.
    pub fn row_cycles(&self, row: u64) -> [u8; 15]
        ensures { (cycle : ℕ) → cycle < 15 → slice_index result cycle ≡ row / 2 ^ (8 * cycle) % 256 }
    {
        let mut cycles = [0; 15];
        let mut left = row;
        for cycle in 0..15 {
            cycles[cycle] = (left % 256) as u8;
            left /= 256;
        }
        cycles
    }
}
