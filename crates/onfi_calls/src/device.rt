use crate::channel::{PlainLengths, PlainRules, PlainTiming};

/// What of a device its addressing rests on, and what it may do at the same time.
#[repr(C)]
#[derive(Clone, Copy)]
pub struct PlainGeometry {
    /// Blocks of a LUN, 1 to 65,536.
    pub blocks_per_lun: u32,
    /// Bits of a page, a block and a LUN number in a row address.
    pub page_bits: u32,
    pub block_bits: u32,
    pub lun_bits: u32,
    /// Pages of a block, 1 to 4,096.
    pub pages_per_block: u16,
    /// Data bytes and spare bytes of a page.
    pub data_bytes: u16,
    pub spare_bytes: u16,
    /// LUNs of the device, 1 to 8.
    pub lun_count: u8,
    /// Plane address bits, 0 to 2.
    pub plane_address_bits: u8,
    /// Address cycles of a column and of a row.
    pub column_address_cycles: u8,
    pub row_address_cycles: u8,
    /// Whether the pages of a block may be programmed in any order.
    pub any_page_order: bool,
    /// Whether several planes may program or erase, and whether they may read, at the same time.
    pub multi_plane_writes: bool,
    pub multi_plane_reads: bool,
}

/// A device: its lengths, those of reads of some sectors, what it may group, and its geometry.
#[repr(C)]
#[derive(Clone, Copy)]
pub struct PlainDevice {
    pub timing: PlainTiming,
    pub lengths: PlainLengths,
    pub rules: PlainRules,
    pub geometry: PlainGeometry,
}
