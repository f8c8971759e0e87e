ghost use Rattle.std.specs.Prelude.{◌≡◌, ◌+◌, ◌<◌, ◌↔◌, IsTrue, IsBitSet, length};
ghost use Rattle.onfi_param.specs.Fields.{two_bytes, four_bytes};
ghost use Rattle.onfi_param.specs.Fields as field;

use std::marker::Model;

/// A parameter page (ONFI 4.2, parameter page definition): 256 bytes that were found to be a copy.
///
/// Contracts see it as the list of its bytes; `specs/Fields` says what each field is of them.
#[derive(Debug, Drop)]
pub struct ParamPage {
    bytes: [u8; 256],
}

impl Model for ParamPage {
    ghost use Rattle.std.specs.Prelude.{ℕ, List};

    ghost Value = { List ℕ };

    ghost view = { λ page. page.bytes };
}

impl ParamPage {
    pub(crate) fn of(copy: &[u8]) -> ParamPage
        requires { length copy.now ≡ 256 }
        ensures { result ≡ copy.now }
    {
        let mut bytes = [0; 256];
        bytes.copy_from_slice(copy);
        ParamPage { bytes }
    }

    fn two_bytes(&self, at: usize) -> u16
        requires { at + 1 < 256 }
        ensures { result ≡ two_bytes at self.now }
    {
        u16::from_le_bytes([self.bytes[at], self.bytes[at + 1]])
    }

    fn four_bytes(&self, at: usize) -> u32
        requires { at + 3 < 256 }
        ensures { result ≡ four_bytes at self.now }
    {
        u32::from(self.two_bytes(at)) + (u32::from(self.two_bytes(at + 2)) << 16)
    }

    /// The signature, `ONFI` but for at most two bytes that were read wrong (bytes 0-3).
    #[tactic(auto, unfolding(crate::specs::Fields::signature))]
    pub fn signature(&self) -> &[u8]
        ensures { result.now ≡ field.signature self.now }
    {
        &self.bytes[0..4]
    }

    /// All bits of the features that the device supports (bytes 6-7).
    #[tactic(auto, unfolding(crate::specs::Fields::features))]
    pub fn features(&self) -> u16
        ensures { result ≡ field.features self.now }
    {
        self.two_bytes(6)
    }

    /// Whether the data bus has 16 bits (features, bit 0).
    pub fn has_wide_bus(&self) -> bool
        ensures { IsTrue result ↔ IsBitSet (field.features self.now) 0 }
    {
        self.features() & (1 << 0) != 0
    }

    /// Whether several LUNs may work at the same time (features, bit 1).
    pub fn has_multiple_lun_operations(&self) -> bool
        ensures { IsTrue result ↔ IsBitSet (field.features self.now) 1 }
    {
        self.features() & (1 << 1) != 0
    }

    /// Whether the pages of a block may be programmed in any order (features, bit 2).
    pub fn has_non_sequential_programming(&self) -> bool
        ensures { IsTrue result ↔ IsBitSet (field.features self.now) 2 }
    {
        self.features() & (1 << 2) != 0
    }

    /// Whether several planes may program or erase at the same time (features, bit 3).
    pub fn has_multi_plane_program_and_erase(&self) -> bool
        ensures { IsTrue result ↔ IsBitSet (field.features self.now) 3 }
    {
        self.features() & (1 << 3) != 0
    }

    /// Whether several planes may read at the same time (features, bit 6).
    pub fn has_multi_plane_read(&self) -> bool
        ensures { IsTrue result ↔ IsBitSet (field.features self.now) 6 }
    {
        self.features() & (1 << 6) != 0
    }

    /// All bits of the optional commands that the device supports (bytes 8-9).
    #[tactic(auto, unfolding(crate::specs::Fields::optional_commands))]
    pub fn optional_commands(&self) -> u16
        ensures { result ≡ field.optional_commands self.now }
    {
        self.two_bytes(8)
    }

    /// Whether the device has Read Status Enhanced, 78h (optional commands, bit 3).
    pub fn has_read_status_enhanced(&self) -> bool
        ensures { IsTrue result ↔ IsBitSet (field.optional_commands self.now) 3 }
    {
        self.optional_commands() & (1 << 3) != 0
    }

    /// Whether the device has Change Read Column Enhanced, 06h..E0h (optional commands, bit 6).
    pub fn has_change_read_column_enhanced(&self) -> bool
        ensures { IsTrue result ↔ IsBitSet (field.optional_commands self.now) 6 }
    {
        self.optional_commands() & (1 << 6) != 0
    }

    /// The manufacturer, as ASCII with spaces after it (bytes 32-43).
    #[tactic(auto, unfolding(crate::specs::Fields::manufacturer))]
    pub fn manufacturer(&self) -> &[u8]
        ensures { result.now ≡ field.manufacturer self.now }
    {
        &self.bytes[32..44]
    }

    /// The model, as ASCII with spaces after it (bytes 44-63).
    #[tactic(auto, unfolding(crate::specs::Fields::model))]
    pub fn model(&self) -> &[u8]
        ensures { result.now ≡ field.model self.now }
    {
        &self.bytes[44..64]
    }

    /// Data bytes of a page, without the spare bytes (bytes 80-83).
    #[tactic(auto, unfolding(crate::specs::Fields::data_bytes))]
    pub fn data_bytes(&self) -> u32
        ensures { result ≡ field.data_bytes self.now }
    {
        self.four_bytes(80)
    }

    /// Spare bytes of a page (bytes 84-85).
    #[tactic(auto, unfolding(crate::specs::Fields::spare_bytes))]
    pub fn spare_bytes(&self) -> u16
        ensures { result ≡ field.spare_bytes self.now }
    {
        self.two_bytes(84)
    }

    /// Pages of a block (bytes 92-95).
    #[tactic(auto, unfolding(crate::specs::Fields::pages_per_block))]
    pub fn pages_per_block(&self) -> u32
        ensures { result ≡ field.pages_per_block self.now }
    {
        self.four_bytes(92)
    }

    /// Blocks of a LUN (bytes 96-99).
    #[tactic(auto, unfolding(crate::specs::Fields::blocks_per_lun))]
    pub fn blocks_per_lun(&self) -> u32
        ensures { result ≡ field.blocks_per_lun self.now }
    {
        self.four_bytes(96)
    }

    /// LUNs of the device (byte 100).
    #[tactic(auto, unfolding(crate::specs::Fields::lun_count))]
    pub fn lun_count(&self) -> u8
        ensures { result ≡ field.lun_count self.now }
    {
        self.bytes[100]
    }

    /// Column address cycles, 0 to 15 (byte 101, high four bits).
    #[tactic(auto, unfolding(crate::specs::Fields::column_cycles))]
    pub fn column_cycles(&self) -> u8
        ensures value { result ≡ field.column_cycles self.now }
        ensures four_bits { result < 16 }
    {
        self.bytes[101] >> 4
    }

    /// Row address cycles, 0 to 15 (byte 101, low four bits).
    #[tactic(auto, unfolding(crate::specs::Fields::row_cycles))]
    pub fn row_cycles(&self) -> u8
        ensures value { result ≡ field.row_cycles self.now }
        ensures four_bits { result < 16 }
    {
        self.bytes[101] & 0x0F
    }

    /// Plane address bits, 0 to 15 (byte 113, low four bits).
    #[tactic(auto, unfolding(crate::specs::Fields::plane_address_bits))]
    pub fn plane_address_bits(&self) -> u8
        ensures value { result ≡ field.plane_address_bits self.now }
        ensures four_bits { result < 16 }
    {
        self.bytes[113] & 0x0F
    }

    /// tPROG, the longest time of a page program, in microseconds (bytes 133-134).
    #[tactic(auto, unfolding(crate::specs::Fields::t_prog))]
    pub fn t_prog(&self) -> u16
        ensures { result ≡ field.t_prog self.now }
    {
        self.two_bytes(133)
    }

    /// tBERS, the longest time of a block erase, in microseconds (bytes 135-136).
    #[tactic(auto, unfolding(crate::specs::Fields::t_bers))]
    pub fn t_bers(&self) -> u16
        ensures { result ≡ field.t_bers self.now }
    {
        self.two_bytes(135)
    }

    /// tR, the longest time of a page read, in microseconds (bytes 137-138).
    #[tactic(auto, unfolding(crate::specs::Fields::t_r))]
    pub fn t_r(&self) -> u16
        ensures { result ≡ field.t_r self.now }
    {
        self.two_bytes(137)
    }

    /// tCCS, the shortest wait after a change of the column, in nanoseconds (bytes 139-140).
    #[tactic(auto, unfolding(crate::specs::Fields::t_ccs))]
    pub fn t_ccs(&self) -> u16
        ensures { result ≡ field.t_ccs self.now }
    {
        self.two_bytes(139)
    }

    /// The check value that the page holds of its other bytes (bytes 254-255).
    #[tactic(auto, unfolding(crate::specs::Fields::stored_crc))]
    pub fn stored_crc(&self) -> u16
        ensures { result ≡ field.stored_crc self.now }
    {
        self.two_bytes(254)
    }
}
