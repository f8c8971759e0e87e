ghost use Rattle.std.specs.Prelude.{◌≡◌, ◌≤◌, ◌+◌, ℕ, List, length, take, drop};
ghost use Rattle.onfi_die.specs.Block.{length_out, put_out};
ghost use Rattle.onfi_die.specs.Shapes.{shape_of};

use onfi_addr::Geometry;
use onfi_timing::Kind;

/// The shape of each block of a device.
#[derive(Clone, Copy, Debug, PartialEq, Eq)]
pub struct Shape {
    /// Pages of the block.
    pub pages: u16,
    /// Data and spare bytes of a page.
    pub bytes: u16,
    /// Whether pages may be programmed in any order (ONFI 4.2, parameter page, features bit 2); where not, a program
    /// fails while a higher page isn't erased.
    pub any_order: bool,
    /// Bytes of a sector, of which reads put out some; 0 where they put out pages as a whole alone.
    pub sector_bytes: u16,
}

impl Shape {
    /// The shape of the blocks of a device with this geometry.
    pub fn of(geometry: &Geometry) -> Shape
        ensures { result ≡ shape_of geometry.now }
    {
        Shape {
            pages: geometry.pages_per_block,
            bytes: geometry.page_bytes(),
            any_order: geometry.any_page_order,
            sector_bytes: geometry.sector_bytes,
        }
    }

    /// Where the bytes of `count` sectors from sector `first` on begin in a page, and how many it has of them; all bytes of
    /// the page where `count` is 0.
    pub(crate) fn part(&self, first: u8, count: u8) -> (usize, usize)
        ensures within { result.0 + result.1 ≤ self.now.bytes }
        ensures cut { (content : List ℕ) → length content ≡ self.now.bytes
            → take result.1 (drop result.0 content) ≡ put_out self.now (Kind.ReadSectors first count) content }
        ensures length { result.1 ≡ length_out self.now (Kind.ReadSectors first count) }
    {
        let bytes = usize::from(self.bytes);
        if count == 0 {
            return (0, bytes);
        }
        let sector = usize::from(self.sector_bytes);
        let from = bytes.min(usize::from(first) * sector);
        (from, (bytes - from).min(usize::from(count) * sector))
    }
}
